// A set of the IDs of fields, as those that stood in a segment.
ghost use Rattle.std.specs.Prelude.{◌≡◌, ◌<◌, ◌||◌, if◌then◌else◌, false, Some, None, IfSome};
ghost use Rattle.grammar.specs.Grammar.{Id};
ghost use Rattle.grammar.specs.declared.states.FieldId.{FieldId};
ghost use Rattle.marks.specs.Ids.{is_id, row, same_id, has};

use grammar::bytes::{is_capital, is_digit};
use grammar::states::FieldId;

#[derive(Drop)]
pub struct Ids {
    // whether the ID is in it whose row the index is
    marks: [bool; 2600],
}

impl Ids {
    // None of them.
    pub fn new() -> Ids
        ensures { (i : FieldId) → has result i ≡ false }
    {
        Ids {
            marks: [false; 2600],
        }
    }

    // Puts an ID into it. What is no capital letter and two digits changes nothing.
    pub fn insert(&mut self, id: FieldId)
        ensures members { (i : FieldId) → Id i → has self.new i ≡ (has self.old i || same_id id i) }
    {
        if let Some(row) = row_of(id) {
            self.marks[row] = true;
        }
    }

    // What is no capital letter and two digits is never in it.
    pub fn contains(&self, id: FieldId) -> bool
        ensures { result ≡ has self.now id }
    {
        match row_of(id) {
            Some(row) => self.marks[row],
            None => false,
        }
    }
}

// Where the mark of an ID stands.
fn row_of(id: FieldId) -> Option<usize>
    ensures value { result ≡ (if is_id id then Some (row id) else None) }
    ensures within { IfSome result (λ n. n < 2600) }
{
    if !(is_capital(id.letter) && is_digit(id.tens) && is_digit(id.ones)) {
        return None;
    }
    let letter = usize::from(id.letter - b'A');
    let tens = usize::from(id.tens - b'0');
    let ones = usize::from(id.ones - b'0');
    Some(letter * 100 + tens * 10 + ones)
}
