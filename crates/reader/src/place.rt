// A place in an upload: each function that reads begins at one and gives the one behind.
ghost use Rattle.std.specs.Prelude.{◌≡◌, ◌+◌, ◌≤◌, ◌<◌, length, IfSome, IfNone, slice_index};
ghost use Rattle.reader.specs.Scans.{FaultAt};

use crate::faults::{Cause, TagFault};

// A place among the bytes of an upload, or its end. Each function that gives a place behind it says that it is one of the same
// upload: that is a fact of two places, which the type of one cannot carry.
#[derive(Clone, Copy)]
pub(crate) struct Place<'a> {
    pub(crate) upload: &'a [u8],
    pub(crate) at: usize,
    ghost within: { at ≤ length upload.now },
}

impl<'a> Place<'a> {
    // Where the upload begins.
    pub(crate) fn first(upload: &'a [u8]) -> Place<'a>
        ensures upload { result.upload ≡ upload.entry }
        ensures at { result.at ≡ 0 }
    {
        Place { upload, at: 0 }
    }

    // The byte here and the place behind it, unless the upload ends here.
    pub(crate) fn byte(self) -> Option<(u8, Place<'a>)>
        ensures within { IfSome result (λ x. self.entry.at < length self.entry.upload.now) }
        ensures byte { IfSome result (λ x. slice_index self.entry.upload.now self.entry.at ≡ x.0) }
        ensures upload { IfSome result (λ x. x.1.upload ≡ self.entry.upload) }
        ensures behind { IfSome result (λ x. x.1.at ≡ self.entry.at + 1) }
        ensures end { IfNone result (self.entry.at ≡ length self.entry.upload.now) }
    {
        let byte = *self.upload.get(self.at)?;
        let behind = Place {
            upload: self.upload,
            at: self.at + 1,
        };
        Some((byte, behind))
    }

    // The fault here: a byte that may not stand here, or the end of the upload.
    pub(crate) fn fault(self, cause: Cause) -> TagFault
        ensures { FaultAt self.entry.upload.now self.entry.at cause result }
    {
        match self.byte() {
            Some(_) => TagFault::Wrong {
                cause,
                place: self.at,
            },
            None => TagFault::Ended { place: self.at },
        }
    }
}
