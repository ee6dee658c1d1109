// Looking keys up, and how long it takes.
ghost use Rattle.std.specs.Prelude.{◌≡◌, ◌<◌, IfOk, length};
ghost use Rattle.bench_registers.specs.Found.{found_in};

use register::key::Key;
use register::register::Register;
use std::io;
use std::rt::Clock;
use std::time::Instant;

// How many of the keys have an entry.
pub(crate) fn how_many_found<R: Register>(register: &R, keys: &[Key]) -> usize
    ensures { result ≡ found_in (R.contents register.now) keys.now }
{
    keys.iter()
        .filter(|key| register.look_up(key).is_some())
        .count()
}

// What looking up some keys took, in seconds, and how many had an entry.
#[derive(Clone, Copy)]
pub struct Times {
    pub seconds: f64,
    pub found: usize,
    pub keys: usize,
}

// The least time of so many passes over the keys.
pub(crate) fn time_look_ups<R: Register>(
    rt: &impl Clock,
    register: &R,
    keys: &[Key],
    passes: usize,
) -> io::Result<Times>
    ensures keys { IfOk result (λ t. t.keys ≡ length keys.now) }
    ensures found { IfOk result (λ t. 0 < passes → t.found ≡ found_in (R.contents register.now) keys.now) }
{
    let mut times = Times {
        seconds: f64::INFINITY,
        found: 0,
        keys: keys.len(),
    };
    for _ in 0..passes {
        let start = Instant::now(rt)?;
        times.found = how_many_found(register, keys);
        times.seconds = times.seconds.min(start.elapsed(rt)?.as_secs_f64());
    }
    Ok(times)
}
