// Receiving an upload, and how long it takes.
ghost use Rattle.std.specs.Prelude.{◌≡◌, IfOk, []};
ghost use Rattle.std.specs.List.{fold};
ghost use Rattle.lists.specs.Shapes.{shaped};
ghost use Rattle.receiving.specs.Receiving.{Received, event_of};
ghost use Rattle.register.specs.Contents.{without};

use crate::keys::SENDER;
use faults::rules::Rule;
use judging::upload::{Counts, judge_upload};
use lists::shapes::ShapeLists;
use reader::faults::Refusal;
use receiving::receive::{Delivery, receive};
use register::key::Key;
use register::register::Register;
use std::io;
use std::rt::Clock;
use std::time::Instant;
use trials::dice::Dice;
use trials::draws::entry_with;
use uploads::calls::{Call, LEAST_ROWS};
use uploads::opening::open;

// The receipt day.
const DAY: &[u8] = b"1130229";

// An upload and the keys of its records.
#[derive(Drop)]
pub(crate) struct Sent {
    pub(crate) bytes: Vec<u8>,
    pub(crate) keys: Vec<Key>,
}

// What became of an upload, and how many seconds that took.
#[derive(Clone, Copy)]
pub struct Receipt {
    pub seconds: f64,
    pub answer: Result<Counts, Refusal>,
}

impl Receipt {
    // Before anything was received.
    const NONE: Receipt = Receipt {
        seconds: f64::INFINITY,
        answer: Err(Refusal::Call),
    };

    // The faster one.
    fn min(self, other: Receipt) -> Receipt {
        if other.seconds < self.seconds {
            other
        } else {
            self
        }
    }
}

// Puts an entry by the dice under each of the keys.
pub(crate) fn fill<R: Register>(register: &mut R, keys: &[Key]) {
    let mut dice = Dice { state: 3 };
    for &key in keys {
        let _ = register.put(key, entry_with(&mut dice, None));
    }
}

// Removes what stands under the keys.
fn take_back<R: Register>(register: &mut R, keys: &[Key])
    ensures { R.contents register.new ≡ fold without (R.contents register.old) keys.now }
{
    for key in keys {
        register.remove(key);
    }
}

// Receives once, with no report rows.
fn time_receipt<R: Register>(
    rt: &impl Clock,
    register: &mut R,
    delivery: Delivery,
    verdicts: &mut [Option<Rule>],
) -> io::Result<Receipt>
    ensures { IfOk result (λ t. Received (R.contents register.old) (event_of shaped delivery.entry verdicts.new [] t.answer) (R.contents register.new)) }
{
    let start = Instant::now(rt)?;
    let answer = receive(register, &ShapeLists, delivery, verdicts, &mut []);
    Ok(Receipt {
        seconds: start.elapsed(rt)?.as_secs_f64(),
        answer,
    })
}

// The fastest of so many receipts, of records that are new or stand there already. The register is then without them.
pub(crate) fn time_receipts<R: Register>(
    rt: &impl Clock,
    register: &mut R,
    sent: &Sent,
    stands: bool,
    passes: usize,
) -> io::Result<Receipt> {
    let mut verdicts = [None; LEAST_ROWS];
    let delivery = Delivery {
        sender: &SENDER,
        day: DAY,
        upload: &sent.bytes,
    };
    let mut fastest = Receipt::NONE;
    for _ in 0..passes {
        if stands {
            time_receipt(rt, register, delivery, &mut verdicts)?;
        }
        fastest = fastest.min(time_receipt(rt, register, delivery, &mut verdicts)?);
        take_back(register, &sent.keys);
    }
    Ok(fastest)
}

// The same upload opened and judged, with no register.
fn judge_alone(sent: &Sent) -> Result<Counts, Refusal> {
    let upload = open(Call {
        sender: &SENDER,
        day: DAY,
        upload: &sent.bytes,
        rows: LEAST_ROWS,
    })?;
    Ok(judge_upload(upload, &ShapeLists, &mut []))
}

// The fastest of so many times.
pub(crate) fn time_judging(rt: &impl Clock, sent: &Sent, passes: usize) -> io::Result<Receipt> {
    let mut fastest = Receipt::NONE;
    for _ in 0..passes {
        let start = Instant::now(rt)?;
        let answer = judge_alone(sent);
        let seconds = start.elapsed(rt)?.as_secs_f64();
        fastest = fastest.min(Receipt { seconds, answer });
    }
    Ok(fastest)
}
