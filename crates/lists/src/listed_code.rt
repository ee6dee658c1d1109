// A code and its list, by which it is looked up.
ghost use Rattle.std.specs.Prelude.{◌≡◌, IsTrue, false, MatchOption};
ghost use Rattle.lists.specs.Lists.{may_be_listed};

use crate::code::Code;

#[derive(Drop)]
pub struct ListedCode {
    pub list: u8,
    pub code: Code,
    ghost listed: { IsTrue (may_be_listed list code) },
}

impl ListedCode {
    // The code with these bytes in this list, if there may be one.
    pub fn new(list: u8, code: &[u8]) -> Option<ListedCode>
        ensures { MatchOption result (may_be_listed list code.now ≡ false) (λ c. (c.list ≡ list) × (c.code ≡ code.now)) }
    {
        if !(1..=7).contains(&list) || code.is_empty() {
            return None;
        }
        Some(ListedCode {
            list,
            code: Code::new(code)?,
        })
    }
}
