// Code lists by the shape of the codes, on any day.
ghost use Rattle.std.specs.Prelude.{◌≡◌};
ghost use Rattle.std.specs.List.{list_any};
ghost use Rattle.std.specs.Str.{bytes_eq};
ghost use Rattle.calendar.specs.Days.{date_of};
ghost use Rattle.lists.specs.Bounds.{bounds_of_shaped};
ghost use Rattle.lists.specs.Shapes.{shaped, visit_numbers};

use crate::code_lists::CodeLists;
use calendar::day::Day;
use grammar::bytes::are_signs;

// Code lists that go by the shape of a code, on any day: in lists 1 to 6 each code stands that is of signs alone, in list 7 each
// visit number.
#[derive(Clone, Copy, PartialEq, Eq, Debug)]
pub struct ShapeLists;

const VISIT_NUMBERS: [[u8; 4]; 28] = [
    *b"A000", *b"A001", *b"A010", *b"A011", *b"A020", *b"A021", *b"A030", *b"A031", *b"B000",
    *b"B001", *b"C000", *b"C001", *b"D000", *b"D001", *b"D010", *b"D011", *b"E000", *b"E001",
    *b"F000", *b"Z000", *b"Z001", *b"G000", *b"IC98", *b"IC09", *b"F00B", *b"CV19", *b"FORE",
    *b"TM01",
];

impl CodeLists for ShapeLists {
    ghost meaning = { λ _. shaped };

    ghost bounds = { λ _. bounds_of_shaped };

    fn contains(&self, list: u8, code: &[u8], _day: Day) -> bool {
        match list {
            1..=6 => (1..=12).contains(&code.len()) && are_signs(code),
            7 => is_visit_number(code),
            _ => false,
        }
    }
}

fn is_visit_number(code: &[u8]) -> bool
    ensures { result ≡ list_any (λ n. bytes_eq n code.now) visit_numbers }
{
    VISIT_NUMBERS.iter().any(|number| number.as_slice() == code)
}
