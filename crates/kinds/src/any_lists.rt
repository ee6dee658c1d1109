// Code lists of either kind.
ghost use Rattle.std.specs.Prelude.{◌≡◌};
ghost use Rattle.calendar.specs.Days.{date_of};
ghost use Rattle.kinds.specs.Lists.{meaning_of, bounds};

use calendar::day::Day;
use lists::code_lists::CodeLists;
use lists::ordered_lists::OrderedLists;
use lists::shapes::ShapeLists;

#[derive(Drop)]
pub enum AnyLists {
    // by the shape of the codes
    Shape(ShapeLists),
    // by rows
    Rows(OrderedLists),
}

impl CodeLists for AnyLists {
    ghost meaning = { meaning_of };

    fn contains(&self, list: u8, code: &[u8], day: Day) -> bool {
        match self {
            AnyLists::Shape(lists) => lists.contains(list, code, day),
            AnyLists::Rows(lists) => lists.contains(list, code, day),
        }
    }

    ghost bounds = { bounds };
}
