// What single values of a visit may be.
ghost use Rattle.std.specs.Prelude.{◌≡◌};
ghost use Rattle.std.specs.Option.{option_map};
ghost use Rattle.calendar.specs.Days.{date_of};
ghost use Rattle.values.specs.Visits.{precedes, is_child_of, is_card_number, is_prevention_number, is_number_in, signs_of, has_signs, rise_to, are_refills, is_dispensing, is_prevention};

use crate::numbers::short_number;
use calendar::day::Day;
use fields::category::Category;
use fields::field::Field;
use grammar::bytes::{are_signs, is_digit, is_plain};

// Whether both are days, and the first is before the second.
#[tactic(auto, using(calendar::proofs::Chronology::lt_days))]
pub fn precedes(a: Option<Day>, b: Option<Day>) -> bool
    ensures { result ≡ precedes (option_map date_of a) (option_map date_of b) }
{
    let Some(a) = a else {
        return false;
    };
    let Some(b) = b else {
        return false;
    };
    a < b
}

pub fn is_child_of(children: u16, rank: u16) -> bool
    ensures { result ≡ is_child_of children rank }
{
    (1..=5).contains(&children) && 1 <= rank && rank <= children
}

pub fn is_card_number(bytes: &[u8]) -> bool
    ensures { result ≡ is_card_number bytes.now }
{
    short_number(bytes).is_some_and(|n| n <= 1500)
}

pub fn is_prevention_number(bytes: &[u8]) -> bool
    ensures { result ≡ is_prevention_number bytes.now }
{
    match *bytes {
        [b'I', b'C', a, b] => is_plain(a) && is_plain(b),
        _ => false,
    }
}

// Whether a normal visit of the category may have the visit number.
pub fn is_number_in(category: Option<Category>, bytes: &[u8]) -> bool
    ensures { result ≡ is_number_in category bytes.now }
{
    match category {
        Some(
            Category::C01
            | Category::C02
            | Category::C03
            | Category::C04
            | Category::C05
            | Category::C06
            | Category::C07
            | Category::C08
            | Category::C09,
        ) => is_card_number(bytes),
        Some(Category::AC) => is_prevention_number(bytes),
        _ => bytes.is_empty(),
    }
}

// How many characters of A to Z and 0 to 9 the field has, if it is a field of such.
pub fn signs_of(field: Field) -> Option<usize>
    ensures { result ≡ signs_of field }
{
    match field {
        Field::M15 | Field::M16 | Field::M52 => Some(20),
        Field::M17 => Some(10),
        _ => None,
    }
}

// Whether the digits rise strictly, from 1 to `times` at most.
fn rise_to(times: u16, digits: &[u8]) -> bool
    ensures { result ≡ rise_to times 0 digits.now }
{
    let mut last = 0;
    for digit in digits {
        if !is_digit(*digit) {
            return false;
        }
        let refill = u16::from(*digit - b'0');
        if refill <= last || refill > times {
            return false;
        }
        last = refill;
    }
    true
}

pub fn are_refills(times: u16, bytes: &[u8]) -> bool
    ensures { result ≡ are_refills times bytes.now }
{
    bytes == b"0".as_slice() || rise_to(times, bytes)
}

pub fn has_signs(n: usize, bytes: &[u8]) -> bool
    ensures { result ≡ has_signs n bytes.now }
{
    bytes.len() == n && are_signs(bytes)
}

pub fn is_dispensing(category: Option<Category>) -> bool
    ensures { result ≡ is_dispensing category }
{
    matches!(category, Some(Category::AE | Category::AF))
}

pub fn is_prevention(category: Option<Category>) -> bool
    ensures { result ≡ is_prevention category }
{
    matches!(category, Some(Category::AC))
}
