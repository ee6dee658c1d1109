// The greatest uploads: by bytes, by records, and by orders of a record.
use crate::files::{Answer, DECLARATION, RIGHT_CALL, answer_to, cut_short, opened, unlawful};
use reader::faults::Cause::Elsewhere;
use reader::faults::Refusal::{self, CutShort, Foreign, Length, NoHeader, TooMany, Unlawful};
use std::alloc::{AllocError, Global};
use std::process::Abort;
use std::test::Fail;
use uploads::calls::Call;

// A record with no order has 42 bytes. Its orders stand behind the first 31.
const BEFORE_ORDERS: &[u8] = b"<REC><MSH></MSH><MB><MB1></MB1>";

const AFTER_ORDERS: &[u8] = b"</MB></REC>";

// An order of 11 bytes.
const ORDER: &[u8] = b"<MB2></MB2>";

// A record of 63 bytes with a foreign sender, fifteen bytes behind its start.
const FOREIGN: &[u8] = b"<REC><MSH><M05>9999999999</M05></MSH><MB><MB1></MB1></MB></REC>";

// Uploads without their end: a first record, then how many records with how many orders each; and what becomes of the
// upload once it has its end. The first record begins at place 43.
const UPLOADS: [(&[u8], &[(usize, usize)], Answer); 27] = [
    // orders of a record
    (b"", &[(1, 998)], Ok(1)),
    (b"", &[(1, 999)], Ok(1)),
    (b"", &[(1, 1000)], Err(TooMany { place: 11063 })),
    (b"", &[(1, 1001)], Err(TooMany { place: 11063 })),
    (b"", &[(1, 2000)], Err(TooMany { place: 11063 })),
    (b"", &[(2, 999)], Ok(2)),
    (b"", &[(5, 999)], Ok(5)),
    (b"", &[(2, 500)], Ok(2)),
    (b"", &[(1, 999), (1, 1000)], Err(TooMany { place: 22094 })),
    (b"", &[(1, 1000), (1, 1000)], Err(TooMany { place: 11063 })),
    (b"", &[(1, 1000), (1, 0)], Err(TooMany { place: 11063 })),
    (
        b"",
        &[(1, 0), (1, 1000), (1, 999)],
        Err(TooMany { place: 11105 }),
    ),
    // records
    (b"", &[(4095, 0)], Ok(4095)),
    (b"", &[(4096, 0)], Ok(4096)),
    (b"", &[(4097, 0)], Err(TooMany { place: 172075 })),
    (b"", &[(4098, 0)], Err(TooMany { place: 172075 })),
    (b"", &[(5000, 0)], Err(TooMany { place: 172075 })),
    (b"", &[(4096, 1)], Ok(4096)),
    // both
    (b"", &[(1, 1000), (4096, 0)], Err(TooMany { place: 11063 })),
    (b"", &[(4096, 0), (1, 1000)], Err(TooMany { place: 172075 })),
    (
        b"",
        &[(4095, 0), (1, 1000), (1, 0)],
        Err(TooMany { place: 183053 }),
    ),
    (
        b"",
        &[(4095, 0), (1, 999), (1, 0)],
        Err(TooMany { place: 183064 }),
    ),
    // a foreign sender, which is told only if there are not too many
    (FOREIGN, &[(4095, 0)], Err(Foreign { place: 58 })),
    (FOREIGN, &[(1, 999)], Err(Foreign { place: 58 })),
    (FOREIGN, &[(4096, 0)], Err(TooMany { place: 172096 })),
    (FOREIGN, &[(1, 1000)], Err(TooMany { place: 11126 })),
    (
        FOREIGN,
        &[(1, 1000), (4095, 0)],
        Err(TooMany { place: 11126 }),
    ),
];

// The first bytes of an upload that spaces follow, its length with them, and what becomes of it.
const LENGTHS: [(&[u8], usize, Answer); 14] = [
    (b"<RECS></RECS>", 50, Ok(0)),
    (b"<RECS></RECS>", 1048575, Ok(0)),
    (b"<RECS></RECS>", 1048576, Ok(0)),
    (b"<RECS></RECS>", 1048577, Err(Length)),
    (b"<RECS></RECS>", 2097152, Err(Length)),
    (
        b"<RECS></RECS>x",
        1048576,
        Err(Unlawful {
            cause: Elsewhere,
            place: 50,
        }),
    ),
    (b"<RECS></RECS>x", 1048577, Err(Length)),
    (b"<RECS>", 1048576, Err(CutShort { place: 1048576 })),
    (b"<RECS>", 1048577, Err(Length)),
    (b"", 1048576, Err(CutShort { place: 1048576 })),
    (
        b"<RECS><REC><MSH><M01>",
        1048576,
        Err(CutShort { place: 1048576 }),
    ),
    (b"<RECS><REC><MSH><M01>", 1048577, Err(Length)),
    (b"<RECS><REC><MB>", 1048576, Err(NoHeader { place: 48 })),
    (b"<RECS><REC><MB>", 1048577, Err(Length)),
];

fn without_end(
    alloc: Global,
    first: &[u8],
    groups: &[(usize, usize)],
) -> Result<Vec<u8>, AllocError> {
    let mut bytes = [DECLARATION, b"<RECS>", first].concat(alloc)?;
    for (records, orders) in groups {
        let orders = ORDER.repeat(alloc, *orders)?;
        let record = [BEFORE_ORDERS, orders.as_slice(), AFTER_ORDERS].concat(alloc)?;
        let records = record.as_slice().repeat(alloc, *records)?;
        bytes.extend_from_slice(records.as_slice())?;
    }
    Ok(bytes)
}

fn padded(alloc: Global, text: &[u8], length: usize) -> Result<Vec<u8>, AllocError> {
    let mut bytes = [DECLARATION, text].concat(alloc)?;
    bytes.resize(length, b' ')?;
    Ok(bytes)
}

// What becomes of an upload in a right call; in a wrong one, with too few rows, it is not looked at.
fn comes_to(rt: &impl Abort, upload: &[u8], answer: Answer) {
    assert_eq!(rt; opened(upload), answer, "of {} bytes", upload.len());
    let call = Call {
        upload,
        rows: 4095,
        ..RIGHT_CALL
    };
    assert_eq!(rt;
        answer_to(call),
        Err(Refusal::Call),
        "of {} bytes",
        upload.len()
    );
}

// Tries an upload without its end, with a wrong byte there, and with its end: only then is it told what is too many.
fn ends(rt: &(impl Abort + AllocGlobal), cut: &[u8], answer: Answer) -> Result<(), Fail> {
    let place = cut.len();
    comes_to(rt, cut, cut_short(place));
    let wrong = [cut, b"\x00</RECS>"].concat(rt.alloc())?;
    comes_to(rt, wrong.as_slice(), unlawful(Elsewhere, place));
    let whole = [cut, b"</RECS>"].concat(rt.alloc())?;
    comes_to(rt, whole.as_slice(), answer);
    Ok(())
}

#[test]
fn records_and_orders(rt: HostRuntime) -> Result<(), Fail> {
    for (first, groups, answer) in &UPLOADS {
        let cut = without_end(rt.alloc(), first, groups)?;
        ends(&rt, cut.as_slice(), *answer)?;
    }
    Ok(())
}

// The last byte of the longest upload, white or wrong.
fn last_byte(rt: &(impl Abort + AllocGlobal)) -> Result<(), Fail> {
    let shorter = padded(rt.alloc(), b"<RECS></RECS>", 1048575)?;
    let white = [shorter.as_slice(), b"\n"].concat(rt.alloc())?;
    comes_to(rt, white.as_slice(), Ok(0));
    let wrong = [shorter.as_slice(), b"x"].concat(rt.alloc())?;
    comes_to(rt, wrong.as_slice(), unlawful(Elsewhere, 1048575));
    Ok(())
}

#[test]
fn lengths(rt: HostRuntime) -> Result<(), Fail> {
    for (text, length, answer) in &LENGTHS {
        let upload = padded(rt.alloc(), text, *length)?;
        assert_eq!(rt; upload.len(), *length);
        comes_to(&rt, upload.as_slice(), *answer);
    }
    last_byte(&rt)
}
