// Wrong calls and right ones, and which of several faults is told.
use crate::files::{Answer, DECLARATION, RIGHT_CALL, answer_to, gives};
use calendar::day::Day;
use reader::faults::Cause::{ClosingId, Elsewhere, Value};
use reader::faults::Refusal::{self, CutShort, Declaration, Length, NoHeader, NoVisit, Unlawful};
use std::process::Abort;
use std::test::Fail;
use uploads::calls::Call;
use uploads::opening::open;

const WRONG_SENDERS: [&[u8]; 21] = [
    b"",
    b"3",
    b"350120000",
    b"35012000000",
    b"35012000003501200000",
    b"350120000a",
    b"a501200000",
    b"3501z00000",
    b"3501 00000",
    b" 350120000",
    b"350120000 ",
    b"3501200000 ",
    b"3501200000\n",
    b"350120000/",
    b"/501200000",
    b"350120000:",
    b"350120000@",
    b"350120000[",
    b"3501\xa4\x400000",
    b"\x00\x00\x00\x00\x00\x00\x00\x00\x00\x00",
    b"350120000\xff",
];

const RIGHT_SENDERS: [&[u8]; 6] = [
    b"3501200000",
    b"0123456789",
    b"ABCDEFGHIJ",
    b"KLMNOPQRST",
    b"UVWXYZ0A9Z",
    b"ZZZZZZZZZZ",
];

const WRONG_DAYS: [&[u8]; 27] = [
    b"",
    b"1",
    b"113061",
    b"11306155",
    b"1130615083000",
    b"0000101",
    b"0000615",
    b"0000000",
    b"1130015",
    b"1131315",
    b"1130600",
    b"1130631",
    b"1130132",
    b"1131232",
    b"1130230",
    b"1120229",
    b"1890229",
    b"9990229",
    b"1130431",
    b"1130931",
    b"1131131",
    b"113061A",
    b"113061 ",
    b"-130615",
    b"113/615",
    b"113061:",
    b"113061\xff",
];

// With year, month and day.
const RIGHT_DAYS: [(&[u8], u16, u8, u8); 12] = [
    (b"1130615", 113, 6, 15),
    (b"0010101", 1, 1, 1),
    (b"9991231", 999, 12, 31),
    (b"0010229", 1, 2, 29),
    (b"0890229", 89, 2, 29),
    (b"1130229", 113, 2, 29),
    (b"4890229", 489, 2, 29),
    (b"1890228", 189, 2, 28),
    (b"1130630", 113, 6, 30),
    (b"1131231", 113, 12, 31),
    (b"1000101", 100, 1, 1),
    (b"0991130", 99, 11, 30),
];

// Uploads, without their declaration, that have several faults or seem to, and what becomes of them in a right call.
const FAULTS: [(&[u8], Answer); 20] = [
    // a foreign sender, and cut short, wrong, or with a tag in another's place
    (
        b"<RECS><REC><MSH><M05>9999999999</M05>",
        Err(CutShort { place: 74 }),
    ),
    (
        b"<RECS><REC><MSH><M05>9999999999",
        Err(CutShort { place: 68 }),
    ),
    (
        b"<RECS><REC><MSH><M05>9999999999</M05></MSH><MB><MB1></MB1></MB></REC></RECS",
        Err(CutShort { place: 112 }),
    ),
    (
        b"<RECS><REC><MSH><M05>9999999999</M05></MSH><MB><MB1></MB1></MB></REC></RECS>x",
        Err(Unlawful {
            cause: Elsewhere,
            place: 113,
        }),
    ),
    (
        b"<RECS><REC><MSH><M05>9999999999</M06>",
        Err(Unlawful {
            cause: ClosingId,
            place: 72,
        }),
    ),
    (
        b"<RECS><REC><MSH><M05>9999999999</M05></MSH><MSH>",
        Err(Unlawful {
            cause: Elsewhere,
            place: 82,
        }),
    ),
    (
        b"<RECS><REC><MSH><M05>9999999999</M05></MSH><MB><MB2>",
        Err(NoVisit { place: 84 }),
    ),
    (
        b"<RECS><REC><MSH><M05>999999999\xff",
        Err(Unlawful {
            cause: Value,
            place: 67,
        }),
    ),
    // several faults of the structure
    (
        b"<RECS><REC><MB></MB></REC><REC><REC>",
        Err(NoHeader { place: 48 }),
    ),
    (
        b"<RECS><REC><MB1></MB1></MSH>\x00",
        Err(NoHeader { place: 48 }),
    ),
    (b"<RECS><REC></REC></RECS>", Err(NoHeader { place: 48 })),
    (
        b"<RECS><REC><MSH></MSH><MB><MB2></MB2></MB></REC><REC><MB>",
        Err(NoVisit { place: 63 }),
    ),
    (
        b"<RECS><REC><MSH></MSH><MB></MB></REC><REC></REC>",
        Err(NoVisit { place: 63 }),
    ),
    (
        b"<RECS><REC><MSH>\x00</MSH><MB><MB2>",
        Err(Unlawful {
            cause: Elsewhere,
            place: 53,
        }),
    ),
    (
        b"<RECS>\x00<REC><MB>",
        Err(Unlawful {
            cause: Elsewhere,
            place: 43,
        }),
    ),
    (
        b"<RECS><REC><MSH><M01>\xff</M02>",
        Err(Unlawful {
            cause: Value,
            place: 58,
        }),
    ),
    (
        b"<RECS><REC><MSH><M01></M02>\xff",
        Err(Unlawful {
            cause: ClosingId,
            place: 62,
        }),
    ),
    (
        b"\x00<RECS",
        Err(Unlawful {
            cause: Elsewhere,
            place: 37,
        }),
    ),
    // none
    (b" <RECS> </RECS> ", Ok(0)),
    (
        b"<RECS><REC><MSH></MSH><MB><MB1></MB1></MB></REC></RECS>",
        Ok(1),
    ),
];

// Whole uploads that are wrong in the declaration or have no byte.
const UNDECLARED: [(&[u8], Answer); 18] = [
    (b"", Err(Length)),
    (b" ", Err(Declaration { place: 0 })),
    (b"x", Err(Declaration { place: 0 })),
    (b"\x00", Err(Declaration { place: 0 })),
    (b"<", Err(Declaration { place: 1 })),
    (b"<RECS></RECS>", Err(Declaration { place: 1 })),
    (b"<!", Err(Declaration { place: 1 })),
    (
        b"<?xml version='1.0' encoding='Big5'?>",
        Err(Declaration { place: 14 }),
    ),
    (
        b"<?xml version=\"1.1\" encoding=\"Big5\"?>",
        Err(Declaration { place: 17 }),
    ),
    (
        b"<?xml version=\"1.0\" encoding=\"big5\"?>",
        Err(Declaration { place: 30 }),
    ),
    (
        b"<?xml version=\"1.0\" encoding=\"UTF-8\"?>",
        Err(Declaration { place: 30 }),
    ),
    (b"<?xml version=\"1.0\"?>", Err(Declaration { place: 19 })),
    (
        b"<?xml version=\"1.0\" encoding=\"Big5\" ?>",
        Err(Declaration { place: 35 }),
    ),
    (
        b"<?xml version=\"1.0\" encoding=\"Big5\"?",
        Err(Declaration { place: 36 }),
    ),
    (
        b"<?xml version=\"1.0\" encoding=\"Big5\"?x",
        Err(Declaration { place: 36 }),
    ),
    (
        b"<?XML version=\"1.0\" encoding=\"Big5\"?>",
        Err(Declaration { place: 2 }),
    ),
    (
        b"\xef\xbb\xbf<?xml version=\"1.0\" encoding=\"Big5\"?>",
        Err(Declaration { place: 0 }),
    ),
    (
        b"<?xml version=\"1.0\" encoding=\"Big5\"?>",
        Err(CutShort { place: 37 }),
    ),
];

// Uploads that a wrong call hands over: lawful, empty, wrong, cut short and with a foreign sender.
const HANDED: [&[u8]; 5] = [
    b"<?xml version=\"1.0\" encoding=\"Big5\"?><RECS></RECS>",
    b"",
    b"x",
    b"<?xml version=\"1.0\" encoding=\"Big5\"?><RECS><REC><MB>",
    b"<?xml version=\"1.0\" encoding=\"Big5\"?><RECS><REC><MSH><M05>9999999999</M05>",
];

// A wrong call is refused whatever it hands over.
fn is_wrong(rt: &impl Abort, call: Call) {
    let Call {
        sender,
        day,
        rows,
        ..
    } = call;
    for upload in &HANDED {
        let answer = answer_to(Call { upload, ..call });
        assert_eq!(rt; answer, Err(Refusal::Call), "{sender:?} {day:?} {rows}");
    }
}

#[test]
fn wrong_calls(rt: HostRuntime) {
    for sender in &WRONG_SENDERS {
        is_wrong(
            &rt,
            Call {
                sender,
                ..RIGHT_CALL
            },
        );
    }
    for day in &WRONG_DAYS {
        is_wrong(&rt, Call { day, ..RIGHT_CALL });
    }
    for rows in [0, 1, 999, 4095] {
        is_wrong(&rt, Call { rows, ..RIGHT_CALL });
    }
    let empty = Call {
        sender: b"",
        day: b"",
        rows: 0,
        ..RIGHT_CALL
    };
    is_wrong(&rt, empty);
    let exchanged = Call {
        sender: RIGHT_CALL.day,
        day: RIGHT_CALL.sender,
        ..RIGHT_CALL
    };
    is_wrong(&rt, exchanged);
}

// What is taken comes with its bytes, its sender and its receipt day.
fn is_right(rt: &impl Abort, call: Call, day: Option<Day>) -> Result<(), Fail> {
    let upload = open(call)?;
    assert_eq!(rt; upload.file.bytes, call.upload);
    assert_eq!(rt; upload.sender, call.sender);
    assert_eq!(rt; Some(upload.day), day);
    assert_eq!(rt; upload.records, 0);
    Ok(())
}

#[test]
fn right_calls(rt: HostRuntime) -> Result<(), Fail> {
    let upload = HANDED[0];
    for sender in &RIGHT_SENDERS {
        for (day, year, month, number) in &RIGHT_DAYS {
            for rows in [4096, 4097, 18446744073709551615] {
                let call = Call {
                    sender,
                    day,
                    upload,
                    rows,
                };
                is_right(&rt, call, Day::new(*year, *month, *number))?;
            }
        }
    }
    Ok(())
}

#[test]
fn several_faults(rt: HostRuntime) -> Result<(), Fail> {
    for (text, answer) in &FAULTS {
        gives(&rt, &[DECLARATION, text], *answer)?;
    }
    for (upload, answer) in &UNDECLARED {
        gives(&rt, &[upload], *answer)?;
    }
    Ok(())
}
