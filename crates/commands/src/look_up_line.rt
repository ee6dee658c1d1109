// What is printed of a look-up.
ghost use Rattle.std.specs.Prelude.{◌≡◌, Some};
ghost use Rattle.std.specs.List.{list_any};
ghost use Rattle.register.specs.Refills.{has_refill};
ghost use Rattle.commands.specs.LookUpLines.{numbers, origin_text, refill_text, refills_text, visit_text, dispensing_text, look_up_text};

use crate::texts::{Text, without_zeros};
use register::entry::Entry;
use register::key::Key;
use register::refills::Refills;
use std::fmt;

// The entry that stands under a key: patient, birth day, category, visit moment, origin, times, refills, and 1 if it is cancelled or
// 0, with blanks between them; or `none`.
#[derive(Clone, Copy)]
pub struct LookUpLine(pub Option<Entry>);

impl fmt::Display for LookUpLine {
    ghost output = { λ line. Some (look_up_text line.0) };

    fn fmt<W: fmt::Write>(&self, f: &mut fmt::Formatter<W>) -> fmt::Result {
        match self.0 {
            Some(entry) => writeln!(f, "{} {}", VisitText(entry), DispensingText(entry)),
            None => writeln!(f, "none"),
        }
    }
}

// Whose visit, of which category and when.
#[derive(Clone, Copy)]
struct VisitText(Entry);

impl fmt::Display for VisitText {
    ghost output = { λ e. Some (visit_text e.0) };

    fn fmt<W: fmt::Write>(&self, f: &mut fmt::Formatter<W>) -> fmt::Result {
        let patient = Text(without_zeros(&self.0.patient));
        let birth = Text(&self.0.birth);
        let category = Text(&self.0.category);
        let visit = Text(&self.0.visit);
        write!(f, "{patient} {birth} {category} {visit}")
    }
}

// What it dispenses or may be dispensed by it, and whether it is cancelled.
#[derive(Clone, Copy)]
struct DispensingText(Entry);

impl fmt::Display for DispensingText {
    ghost output = { λ e. Some (dispensing_text e.0) };

    fn fmt<W: fmt::Write>(&self, f: &mut fmt::Formatter<W>) -> fmt::Result {
        let origin = OriginText(self.0.origin);
        let times = self.0.times;
        let refills = RefillsText(self.0.refills);
        let cancelled = u8::from(self.0.cancelled);
        write!(f, "{origin} {times} {refills} {cancelled}")
    }
}

// A key with a colon in it, or a dash.
#[derive(Clone, Copy)]
struct OriginText(Option<Key>);

impl fmt::Display for OriginText {
    ghost output = { λ o. Some (origin_text o.0) };

    fn fmt<W: fmt::Write>(&self, f: &mut fmt::Formatter<W>) -> fmt::Result {
        match self.0 {
            Some(key) => write!(f, "{}:{}", Text(&key.sender), Text(&key.identifier)),
            None => write!(f, "-"),
        }
    }
}

const REFILLS: [u8; 9] = [1, 2, 3, 4, 5, 6, 7, 8, 9];

// The digits of the refills, rising, or a dash.
#[derive(Clone, Copy)]
struct RefillsText(Refills);

impl fmt::Display for RefillsText {
    ghost output = { λ r. Some (refills_text r.0) };

    fn fmt<W: fmt::Write>(&self, f: &mut fmt::Formatter<W>) -> fmt::Result {
        if !takes_any(&self.0) {
            return write!(f, "-");
        }
        for refill in REFILLS {
            write!(f, "{}", RefillText(self.0, refill))?;
        }
        Ok(())
    }
}

// The digit of a refill, if it is among them.
#[derive(Clone, Copy)]
struct RefillText(Refills, u8);

impl fmt::Display for RefillText {
    ghost output = { λ r. Some (refill_text r.0 r.1) };

    fn fmt<W: fmt::Write>(&self, f: &mut fmt::Formatter<W>) -> fmt::Result {
        let RefillText(refills, refill) = self;
        if refills.contains(*refill) {
            write!(f, "{refill}")
        } else {
            Ok(())
        }
    }
}

fn takes_any(refills: &Refills) -> bool
    ensures { result ≡ list_any (has_refill refills.now) numbers }
{
    REFILLS.iter().any(|refill| refills.contains(*refill))
}
