// Code lists by rows, kept in the order of the codes and found by halving.
ghost use Rattle.std.specs.Prelude.{◌≡◌};
ghost use Rattle.calendar.specs.Days.{date_of};
ghost use Rattle.lists.specs.declared.ordered_lists.NotMade.TheVariants.{Refused, Memory};

use crate::code_lists::CodeLists;
use crate::listed_code::ListedCode;
use crate::row::{Row, first_bad};
use crate::span::Span;
use calendar::day::Day;
use ordered::table::OrderedTable;
use reader::faults::Refusal;
use std::alloc::{AllocError, Global};

#[derive(Drop)]
pub struct OrderedLists {
    table: OrderedTable<ListedCode, Span>,
}

// Why no lists were made.
#[derive(Clone, Copy, PartialEq, Eq, Debug)]
pub enum NotMade {
    // a row is bad
    Refused(Refusal),
    // there is not enough memory
    Memory(AllocError),
}

impl From<Refusal> for NotMade {
    ghost from_gives = { λ r e. e ≡ Refused r };

    fn from(refusal: Refusal) -> NotMade {
        NotMade::Refused(refusal)
    }
}

impl From<AllocError> for NotMade {
    ghost from_gives = { λ a e. e ≡ Memory a };

    fn from(error: AllocError) -> NotMade {
        NotMade::Memory(error)
    }
}

impl OrderedLists {
    ghost use Rattle.lists.specs.Making.{Makes};
    ghost use Rattle.lists.specs.Order.{listed_cmp, DictionaryOrder};

    // The lists of the rows. A bad row is told before anything is made.
    #[tactic(auto, using(crate::proofs::Wording::dictionary_order))]
    pub fn new(alloc: Global, rows: &[Row<'_>]) -> Result<OrderedLists, NotMade>
        ensures made { Makes rows.now result }
        ensures order { DictionaryOrder listed_cmp }
    {
        if let Some(place) = first_bad(rows) {
            return Err(Refusal::Row { place }.into());
        }
        let mut table = OrderedTable::new(alloc, rows.len())?;
        for row in rows {
            if let Some((code, span)) = row.read() {
                let _ = table.put(code, span);
            }
        }
        Ok(OrderedLists { table })
    }
}

impl CodeLists for OrderedLists {
    ghost use Rattle.lists.specs.Kept.{bounds_of_entries};
    ghost use Rattle.lists.specs.Making.{meaning_of};

    ghost meaning = { meaning_of };

    ghost bounds = { λ l. bounds_of_entries l.table.entries };

    #[tactic(auto, using(crate::proofs::Looking::unlisted, crate::proofs::Looking::looked_up))]
    fn contains(&self, list: u8, code: &[u8], day: Day) -> bool {
        let Some(code) = ListedCode::new(list, code) else {
            return false;
        };
        self.table.get(&code).is_some_and(|span| span.contains(day))
    }
}
