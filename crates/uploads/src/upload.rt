// An upload that is taken.
ghost use Rattle.std.specs.Prelude.{◌≡◌, true};
ghost use Rattle.uploads.specs.Calls.{right_length};

use calendar::day::Day;
use grammar::lawful::LawfulUpload;

#[derive(Clone, Copy)]
pub struct Upload<'a> {
    // its bytes, which carry that they are lawful: reading them again cannot fail
    pub file: LawfulUpload<'a>,
    // and no more of them than an upload may have
    pub ghost length: { right_length file.bytes.now ≡ true },
    pub sender: &'a [u8],
    // the receipt day
    pub day: Day,
    // how many records it holds
    pub records: usize,
}
