// Values: every byte alone, and every two bytes of a pair.
use crate::files::{DECLARATION, Standing, cut_short, gives, unlawful};
use reader::faults::Cause::{Elsewhere, Value};
use std::process::Abort;
use std::test::Fail;

// What stands before and behind a value, in each of the three segments. Not made from the table of fields.rt: with the tags
// of a field added to each row it would be longer.
const AROUND: [(&[u8], &[u8]); 3] = [
    (
        b"<RECS><REC><MSH><M01>",
        b"</M01></MSH><MB><MB1></MB1></MB></REC></RECS>",
    ),
    (
        b"<RECS><REC><MSH></MSH><MB><MB1><A01>",
        b"</A01></MB1></MB></REC></RECS>",
    ),
    (
        b"<RECS><REC><MSH></MSH><MB><MB1></MB1><MB2><P01>",
        b"</P01></MB2></MB></REC></RECS>",
    ),
];

// Each byte at the start of a character, 16 in a row.
//     a  a character of its own
//     p  the first of a pair
//     <  the start of the closing tag
//     !  wrong
// The classes stay characters and the rows 16 wide, as bytes are drawn in tables: an enum of the classes would only say
// this list again, and nobody could read a row of 256.
const FIRST: [[u8; 16]; 16] = [
    *b"!!!!!!!!!!!!!!!!",
    *b"!!!!!!!!!!!!!!!!",
    *b"aa!aaa!!aaaaaaaa",
    *b"aaaaaaaaaaaa<a!a",
    *b"aaaaaaaaaaaaaaaa",
    *b"aaaaaaaaaaaaaaaa",
    *b"aaaaaaaaaaaaaaaa",
    *b"aaaaaaaaaaaaaaa!",
    *b"!ppppppppppppppp",
    *b"pppppppppppppppp",
    *b"pppppppppppppppp",
    *b"pppppppppppppppp",
    *b"pppppppppppppppp",
    *b"pppppppppppppppp",
    *b"pppppppppppppppp",
    *b"ppppppppppppppp!",
];

// Each byte behind the first of a pair: the second of the pair (b), or wrong.
const SECOND: [[u8; 16]; 16] = [
    *b"!!!!!!!!!!!!!!!!",
    *b"!!!!!!!!!!!!!!!!",
    *b"!!!!!!!!!!!!!!!!",
    *b"!!!!!!!!!!!!!!!!",
    *b"bbbbbbbbbbbbbbbb",
    *b"bbbbbbbbbbbbbbbb",
    *b"bbbbbbbbbbbbbbbb",
    *b"bbbbbbbbbbbbbbb!",
    *b"!!!!!!!!!!!!!!!!",
    *b"!!!!!!!!!!!!!!!!",
    *b"!bbbbbbbbbbbbbbb",
    *b"bbbbbbbbbbbbbbbb",
    *b"bbbbbbbbbbbbbbbb",
    *b"bbbbbbbbbbbbbbbb",
    *b"bbbbbbbbbbbbbbbb",
    *b"bbbbbbbbbbbbbbb!",
];

fn class_of(table: &[[u8; 16]; 16], byte: u8) -> u8 {
    table[(byte / 16) as usize][(byte % 16) as usize]
}

// Text in a value, and the first of its bytes with which no lawful upload goes on.
const HALVES: [(&[u8], usize); 32] = [
    // before a tag
    (b"\xa4</M01></MSH>", 1),
    (b"\x81</M01></MSH>", 1),
    (b"\xfe</A01></MB1>", 1),
    (b"x\xa4</M01></MSH>", 2),
    (b"\xa4\x40\xa4</M01></MSH>", 3),
    (b"\xa4\xa4\xa4</P01></MB2>", 3),
    (b"\xa4<M02>x</M02>", 1),
    (b"\xa4\x40\xa4<M02></M02>", 3),
    (b"\xa4<", 1),
    (b"\xa4>", 1),
    // before other bytes
    (b"\xa4\x00", 1),
    (b"\xa4\t\x40", 1),
    (b"\xa4\n\x40", 1),
    (b"\xa4\r\x40", 1),
    (b"\xa4 \x40", 1),
    (b"\xa4&", 1),
    (b"\xa4\"", 1),
    (b"\xa4'", 1),
    (b"\xa41", 1),
    (b"\xa4\x3f", 1),
    (b"\xa4\x7f", 1),
    (b"\xa4\x80", 1),
    (b"\xa4\xa0", 1),
    (b"\xa4\xff", 1),
    (b"\x80\x40", 0),
    (b"\xff\x40", 0),
    // a half that takes a letter with it
    (b"\xa4M01>", 4),
    (b"\xa4A>", 2),
    (b"\xa4\x40\x40\xa4\"", 4),
    (b"\xa4\x40\xff", 2),
    // a whole pair, and then a half
    (b"\x81\x40\xfe\xfe\x81\x7f", 5),
    (b"\xa4\x7e\x7f", 2),
];

// Values that are lawful.
const WHOLE: [&[u8]; 14] = [
    b"",
    b" ",
    b"  x  ",
    b"\x81\x40",
    b"\x81\xfe",
    b"\xfe\x40",
    b"\xfe\xfe",
    b"\xa4\xa4\xa4\xa4",
    b"\xa4\x40\x40",
    b"\xa4\x5c\x5c",
    b"\xa4\x7c|",
    b"\xa4\x7e\x7e",
    b"M01/MSH]]--;?=!#$%()*+,.:@[\\]^_`{|}~",
    b"\xb3\x5c\xa5\xc0a\xae\x7a1",
];

// A byte behind a whole character of a value: at the end of the upload, before a tag and before a letter.
fn byte_stands(
    rt: &(impl Abort + AllocGlobal),
    before: &[u8],
    byte: u8,
    after: &[u8],
) -> Result<(), Fail> {
    let place = before.len();
    let ended = cut_short(place + 1);
    let wrong = unlawful(Value, place);
    let half = unlawful(Value, place + 1);
    let tag = unlawful(Elsewhere, place + 1);
    let (at_end, before_tag, before_letter) = match class_of(&FIRST, byte) {
        b'a' => (ended, Ok(1), Ok(1)),
        b'p' => (ended, half, Ok(1)),
        b'<' => (ended, tag, tag),
        _ => (wrong, wrong, wrong),
    };
    gives(rt, &[before, &[byte]], at_end)?;
    gives(rt, &[before, &[byte], after], before_tag)?;
    gives(rt, &[before, &[byte], b"A", after], before_letter)
}

// Two bytes in a value, the first of which begins a pair: at the end of the upload, and before a tag.
fn pair_stands(
    rt: &(impl Abort + AllocGlobal),
    before: &[u8],
    pair: [u8; 2],
    after: &[u8],
) -> Result<(), Fail> {
    let place = before.len() + 1;
    let wrong = unlawful(Value, place);
    let [_, second] = pair;
    let (at_end, before_tag) = match class_of(&SECOND, second) {
        b'b' => (cut_short(place + 1), Ok(1)),
        _ => (wrong, wrong),
    };
    gives(rt, &[before, &pair], at_end)?;
    gives(rt, &[before, &pair, after], before_tag)
}

#[test]
fn every_byte(rt: HostRuntime) -> Result<(), Fail> {
    for (before, after) in &AROUND {
        let before = [DECLARATION, before, b"x"].concat(rt.alloc())?;
        for byte in 0..=255u8 {
            byte_stands(&rt, before.as_slice(), byte, after)?;
        }
    }
    Ok(())
}

#[test]
fn every_pair(rt: HostRuntime) -> Result<(), Fail> {
    let (before, after) = AROUND[0];
    let before = [DECLARATION, before].concat(rt.alloc())?;
    for first in 0x81..=0xfeu8 {
        for second in 0..=255u8 {
            pair_stands(&rt, before.as_slice(), [first, second], after)?;
        }
    }
    Ok(())
}

#[test]
fn halves_of_pairs(rt: HostRuntime) -> Result<(), Fail> {
    for (before, after) in &AROUND {
        let declared = [DECLARATION, before].concat(rt.alloc())?;
        for (text, wrong) in &HALVES {
            let standing = Standing {
                before: declared.as_slice(),
                text,
                wrong: *wrong,
            };
            standing.breaks(&rt, Value)?;
        }
        for value in &WHOLE {
            gives(&rt, &[DECLARATION, before, value, after], Ok(1))?;
        }
    }
    Ok(())
}
