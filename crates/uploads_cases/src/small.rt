// One small upload, cut at every byte and with a byte more at every place.
use crate::files::{Answer, DECLARATION, cut_short, opened, unlawful};
use reader::faults::Cause::{ClosingId, Elsewhere, Value};
use reader::faults::Refusal::{Declaration, Foreign, Length};
use std::alloc::{AllocError, Global};
use std::test::Fail;

// The upload, of two records, piece by piece. The mark of each of its bytes, in the row beside it, says what becomes of it
// if one white byte more stands before that byte; white is space, tab, CR or LF.
//     .  it stays lawful
//     d  the declaration is wrong at the white byte
//     s  so it is, but a space passes for the one that stands there, and the byte after it is wrong
//     -  unlawful with cause 3
//     i  unlawful with cause 2
//     v  in a value: a space is a character of it, all others are unlawful with cause 1
//     m  in a value of M05: as v, but a space makes the sender foreign, at the first byte of the value
//     p  in the midst of a pair: unlawful with cause 1
// The marks stay letters: a row of them is read beside the bytes, and an enum would only say this list again.
const PIECES: [(&[u8], &[u8]); 47] = [
    (
        b"<?xml version=\"1.0\" encoding=\"Big5\"?>",
        b"dddddsdddddddddddddsddddddddddddddddd",
    ),
    (b"\r\n", b".."),
    (b"<RECS>", b".-----"),
    (b"\n", b"."),
    (b"<REC>", b".----"),
    (b" ", b"."),
    (b"<MSH>", b".----"),
    (b"<M01>", b".----"),
    (b"A\xa4\x40z", b"vvpv"),
    (b"</M01>", b"v-iii-"),
    (b"\t", b"."),
    (b"<M05>", b".----"),
    (b"3501200000", b"mmmmmmmmmm"),
    (b"</M05>", b"m-iii-"),
    (b"</MSH>", b".-----"),
    (b"\n", b"."),
    (b"<MB>", b".---"),
    (b"<MB1>", b".----"),
    (b"<A12>", b".----"),
    (b"</A12>", b"v-iii-"),
    (b"</MB1>", b".-----"),
    (b" \t", b".."),
    (b"<MB2>", b".----"),
    (b"<P02>", b".----"),
    (b"\xb0\xa1\xfe\xfe", b"vpvp"),
    (b"</P02>", b"v-iii-"),
    (b"\r", b"."),
    (b"<P02>", b".----"),
    (b"0 1", b"vvv"),
    (b"</P02>", b"v-iii-"),
    (b"</MB2>", b".-----"),
    (b"<MB2>", b".----"),
    (b"</MB2>", b".-----"),
    (b"</MB>", b".----"),
    (b"\r\n", b".."),
    (b"</REC>", b".-----"),
    (b"\r\n", b".."),
    (b"<REC>", b".----"),
    (b"<MSH>", b".----"),
    (b"</MSH>", b".-----"),
    (b"<MB>", b".---"),
    (b"<MB1>", b".----"),
    (b"</MB1>", b".-----"),
    (b"</MB>", b".----"),
    (b"</REC>", b".-----"),
    (b"</RECS>", b".------"),
    (b"\r\n", b".."),
];

fn upload(alloc: Global) -> Result<Vec<u8>, AllocError> {
    PIECES.map(|(piece, _)| piece).concat(alloc)
}

// The upload with all four white bytes more wherever they may stand.
fn spread(alloc: Global) -> Result<Vec<u8>, AllocError> {
    let mut bytes = Vec::new(alloc);
    for (piece, marks) in &PIECES {
        if marks.first() == Some(&b'.') {
            bytes.extend_from_slice(b"\n \r\t")?;
        }
        bytes.extend_from_slice(piece)?;
    }
    Ok(bytes)
}

// Where one byte more goes in.
#[derive(Clone, Copy)]
struct Gap<'a> {
    before: &'a [u8],
    after: &'a [u8],
    // the mark of the byte behind it
    mark: u8,
    // in a value of M05, where the value begins; elsewhere, the next place
    value: usize,
}

impl Gap<'_> {
    // The upload with the byte.
    fn filled(self, alloc: Global, byte: u8) -> Result<Vec<u8>, AllocError> {
        [self.before, &[byte], self.after].concat(alloc)
    }

    // The answer to a white byte. By the mark's letter, as in the list above, and so below.
    fn white_answer(self, byte: u8) -> Answer {
        let place = self.before.len();
        match (self.mark, byte) {
            (b's', b' ') => Err(Declaration { place: place + 1 }),
            (b'd' | b's', _) => Err(Declaration { place }),
            (b'-', _) => unlawful(Elsewhere, place),
            (b'i', _) => unlawful(ClosingId, place),
            (b'v', b' ') => Ok(2),
            (b'm', b' ') => Err(Foreign { place: self.value }),
            (b'v' | b'm' | b'p', _) => unlawful(Value, place),
            _ => Ok(2),
        }
    }

    // The answer to a byte that may stand nowhere.
    fn strange_answer(self) -> Answer {
        let place = self.before.len();
        match self.mark {
            b'd' | b's' => Err(Declaration { place }),
            b'i' => unlawful(ClosingId, place),
            b'v' | b'm' | b'p' => unlawful(Value, place),
            _ => unlawful(Elsewhere, place),
        }
    }
}

// Empty; within the declaration; from there to the last byte of </RECS>, which stands before two white ones; whole.
fn cut_answer(length: usize, whole: usize) -> Answer {
    if length == 0 {
        Err(Length)
    } else if length < DECLARATION.len() {
        Err(Declaration { place: length })
    } else if length < whole.saturating_sub(2) {
        cut_short(length)
    } else {
        Ok(2)
    }
}

#[test]
fn cut_at_every_byte(rt: HostRuntime) -> Result<(), Fail> {
    let bytes = upload(rt.alloc())?;
    let whole = bytes.len();
    for length in 0..=whole {
        let answer = opened(&bytes.as_slice()[..length]);
        assert_eq!(rt; answer, cut_answer(length, whole), "at {length}");
    }
    Ok(())
}

// White bytes, and some that may stand nowhere, not even in a pair.
#[test]
fn one_byte_more(rt: HostRuntime) -> Result<(), Fail> {
    let bytes = upload(rt.alloc())?;
    let marks = PIECES.map(|(_, marks)| marks).concat(rt.alloc())?;
    assert_eq!(rt; marks.len(), bytes.len());
    let mut value = 0;
    // by place: zipped with the marks and a dot behind them, the places were not proved to lie within the bytes
    for place in 0..=bytes.len() {
        let (before, after) = bytes.as_slice().split_at(place);
        let mark = marks.get(place).copied().unwrap_or(b'.');
        if mark != b'm' {
            value = place + 1;
        }
        let gap = Gap {
            before,
            after,
            mark,
            value,
        };
        for byte in b" \t\r\n" {
            let upload = gap.filled(rt.alloc(), *byte)?;
            assert_eq!(rt;
                opened(upload.as_slice()),
                gap.white_answer(*byte),
                "{byte} at {place}"
            );
        }
        for byte in b"\x00\x1f\x7f\x80\xff" {
            let upload = gap.filled(rt.alloc(), *byte)?;
            assert_eq!(rt;
                opened(upload.as_slice()),
                gap.strange_answer(),
                "{byte} at {place}"
            );
        }
    }
    let upload = spread(rt.alloc())?;
    assert_eq!(rt; opened(upload.as_slice()), Ok(2), "white everywhere");
    Ok(())
}
