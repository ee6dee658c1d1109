// Uploads put together from parts, and what becomes of them.
use reader::faults::Cause;
use reader::faults::Refusal::{self, CutShort, Unlawful};
use std::process::Abort;
use std::test::Fail;
use uploads::calls::Call;
use uploads::opening::open;

pub(crate) const DECLARATION: &[u8] = b"<?xml version=\"1.0\" encoding=\"Big5\"?>";

// A right call, but for its upload.
pub(crate) const RIGHT_CALL: Call<'static> = Call {
    sender: b"3501200000",
    day: b"1130615",
    upload: b"",
    rows: 4096,
};

// How many records the upload holds if it is taken.
pub(crate) type Answer = Result<usize, Refusal>;

pub(crate) fn unlawful(cause: Cause, place: usize) -> Answer {
    Err(Unlawful { cause, place })
}

pub(crate) fn cut_short(place: usize) -> Answer {
    Err(CutShort { place })
}

pub(crate) fn answer_to(call: Call) -> Answer {
    open(call).map(|upload| upload.records)
}

// What becomes of an upload in a right call.
pub(crate) fn opened(upload: &[u8]) -> Answer {
    answer_to(Call {
        upload,
        ..RIGHT_CALL
    })
}

// What becomes of an upload of several parts in a right call.
pub(crate) fn gives(
    rt: &(impl Abort + AllocGlobal),
    parts: &[&[u8]],
    answer: Answer,
) -> Result<(), Fail> {
    let upload = parts.concat(rt.alloc())?;
    assert_eq!(rt; opened(upload.as_slice()), answer, "{upload:?}");
    Ok(())
}

// Text behind what stands before it. Its byte at `wrong` is the first with which no lawful upload goes on there.
#[derive(Clone, Copy)]
pub(crate) struct Standing<'a> {
    pub(crate) before: &'a [u8],
    pub(crate) text: &'a [u8],
    pub(crate) wrong: usize,
}

impl Standing<'_> {
    // Cut behind any of its bytes it only begins a lawful upload, or is refused at the wrong one.
    pub(crate) fn breaks(self, rt: &(impl Abort + AllocGlobal), cause: Cause) -> Result<(), Fail> {
        let before = self.before;
        for end in 1..=self.text.len() {
            let answer = if end <= self.wrong {
                cut_short(before.len() + end)
            } else {
                unlawful(cause, before.len() + self.wrong)
            };
            gives(rt, &[before, &self.text[..end]], answer)?;
        }
        Ok(())
    }
}
