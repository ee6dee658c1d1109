// The twelve tags of the structure where they must not stand.
use crate::files::{DECLARATION, Standing, cut_short, gives, unlawful};
use reader::faults::Cause::{self, ClosingId, Elsewhere, Value};
use reader::faults::Refusal::{self, NoHeader, NoVisit};
use std::process::Abort;
use std::test::Fail;

const TAGS: [&[u8]; 12] = [
    b"<RECS>", b"<REC>", b"<MSH>", b"<MB>", b"<MB1>", b"<MB2>", b"</RECS>", b"</REC>", b"</MSH>",
    b"</MB>", b"</MB1>", b"</MB2>",
];

// White bytes between two tags, which change nothing.
const WHITE: [&[u8]; 4] = [b"", b" ", b"\t", b"\r\n\n "];

// What stands before, and a mark for each tag in the order above: the first of its bytes with which no lawful upload
// goes on, or a dot where the tag is right. The marks stay characters: twelve options in a row
// would be no plainer than a row of twelve characters.
const OUTSIDE: [(&[u8], &[u8; 12]); 16] = [
    // <RECS>
    (b"", b".41111111111"),
    // <REC> or </RECS>
    (b"<RECS>", b"4.1111.52222"),
    (
        b"<RECS><REC><MSH></MSH><MB><MB1></MB1></MB></REC>",
        b"4.1111.52222",
    ),
    // a field or </MSH>
    (b"<RECS><REC><MSH>", b"22222222.333"),
    (b"<RECS><REC><MSH><M01>x</M01>", b"22222222.333"),
    // <MB>
    (b"<RECS><REC><MSH></MSH>", b"112.33111111"),
    (b"<RECS><REC><MSH><M01>x</M01></MSH>", b"112.33111111"),
    // a field or </MB1>
    (b"<RECS><REC><MSH></MSH><MB><MB1>", b"2222222234.4"),
    (
        b"<RECS><REC><MSH></MSH><MB><MB1><M01></M01>",
        b"2222222234.4",
    ),
    // <MB2> or </MB>
    (b"<RECS><REC><MSH></MSH><MB><MB1></MB1>", b"11233.223.44"),
    (
        b"<RECS><REC><MSH></MSH><MB><MB1></MB1><MB2></MB2>",
        b"11233.223.44",
    ),
    // a field or </MB2>
    (
        b"<RECS><REC><MSH></MSH><MB><MB1></MB1><MB2>",
        b"22222222344.",
    ),
    (
        b"<RECS><REC><MSH></MSH><MB><MB1></MB1><MB2><M01>x</M01>",
        b"22222222344.",
    ),
    // </REC>
    (
        b"<RECS><REC><MSH></MSH><MB><MB1></MB1></MB>",
        b"1111115.2222",
    ),
    // nothing more
    (b"<RECS></RECS>", b"000000000000"),
    (
        b"<RECS><REC><MSH></MSH><MB><MB1></MB1></MB></REC></RECS>",
        b"000000000000",
    ),
];

// The same where <MSH> must stand.
const BEFORE_HEADER: [(&[u8], &[u8; 12]); 2] = [
    (b"<RECS><REC>", b"11.222111111"),
    (
        b"<RECS><REC><MSH></MSH><MB><MB1></MB1></MB></REC><REC>",
        b"11.222111111",
    ),
];

// The same where <MB1> must stand.
const BEFORE_VISIT: [(&[u8], &[u8; 12]); 3] = [
    (b"<RECS><REC><MSH></MSH><MB>", b"1123.3111111"),
    (b"<RECS><REC><MSH><M01>x</M01></MSH><MB>", b"1123.3111111"),
    (
        b"<RECS><REC><MSH></MSH><MB><MB1></MB1></MB></REC><REC><MSH></MSH><MB>",
        b"1123.3111111",
    ),
];

// The same in values, none of which may go on with a tag, and the causes for an opening and for a closing one.
const IN_VALUES: [(&[u8], &[u8; 12], Cause, Cause); 8] = [
    (
        b"<RECS><REC><MSH><M01>",
        b"111111223333",
        Elsewhere,
        ClosingId,
    ),
    (
        b"<RECS><REC><MSH><M01>x\xa4\x40",
        b"111111223333",
        Elsewhere,
        ClosingId,
    ),
    (
        b"<RECS><REC><MSH></MSH><MB><MB1><M01>",
        b"111111223333",
        Elsewhere,
        ClosingId,
    ),
    (
        b"<RECS><REC><MSH></MSH><MB><MB1></MB1><MB2><M01> ",
        b"111111223333",
        Elsewhere,
        ClosingId,
    ),
    (
        b"<RECS><REC><MSH><R01>x",
        b"111111332222",
        Elsewhere,
        ClosingId,
    ),
    (
        b"<RECS><REC><MSH></MSH><MB><MB1><A01>x",
        b"111111222222",
        Elsewhere,
        ClosingId,
    ),
    // behind the first byte of a pair
    (b"<RECS><REC><MSH><M01>\xa4", b"000000000000", Value, Value),
    (
        b"<RECS><REC><MSH></MSH><MB><MB1></MB1><MB2><M01>x\xfe",
        b"000000000000",
        Value,
        Value,
    ),
];

// What is no tag of the structure, though much like one, and the first of its bytes with which no lawful
// upload goes on.
const LIKE_TAGS: [(&[u8], &[u8], usize); 57] = [
    // for <RECS>
    (b"", b"<RECS/>", 5),
    (b"", b"<RECS >", 5),
    (b"", b"<RECSX>", 5),
    (b"", b"<recs>", 1),
    (b"", b"< RECS>", 1),
    (b"", b"RECS>", 0),
    (b"", b"\xef\xbb\xbf", 0),
    (b"", b"<?xml version", 1),
    (b"", b"<!-- -->", 1),
    // for <REC> or </RECS>
    (b"<RECS>", b"<REC/>", 4),
    (b"<RECS>", b"<REC >", 4),
    (b"<RECS>", b"<REC1>", 4),
    (b"<RECS>", b"<rec>", 1),
    (b"<RECS>", b"<R01></R01>", 2),
    (b"<RECS>", b"<M01></M01>", 1),
    (b"<RECS>", b"</RECS >", 6),
    (b"<RECS>", b"</RECS/>", 6),
    (b"<RECS>", b"</recs>", 2),
    (b"<RECS>", b"</ RECS>", 2),
    (b"<RECS>", b"x", 0),
    (b"<RECS>", b">", 0),
    // for <MSH>
    (b"<RECS><REC>", b"<msh>", 1),
    (b"<RECS><REC>", b"<MSH/>", 4),
    (b"<RECS><REC>", b"<MSH >", 4),
    (b"<RECS><REC>", b"<MSH1>", 4),
    (b"<RECS><REC>", b"<MSI>", 3),
    (b"<RECS><REC>", b"<MB3>", 2),
    (b"<RECS><REC>", b"<MB1 >", 2),
    (b"<RECS><REC>", b"<M01></M01>", 2),
    (b"<RECS><REC>", b"<REC/>", 1),
    (b"<RECS><REC>", b"<RECS >", 1),
    (b"<RECS><REC>", b"</MB3>", 1),
    (b"<RECS><REC>", b"</MSH >", 1),
    (b"<RECS><REC>", b"< MB>", 1),
    (b"<RECS><REC>", b"<<MB>", 1),
    (b"<RECS><REC>", b"x<MB>", 0),
    (b"<RECS><REC>", b"MSH>", 0),
    // for <MB>
    (b"<RECS><REC><MSH></MSH>", b"<MB >", 3),
    (b"<RECS><REC><MSH></MSH>", b"<MB3>", 3),
    (b"<RECS><REC><MSH></MSH>", b"<mb>", 1),
    (b"<RECS><REC><MSH></MSH>", b"<M01></M01>", 2),
    // for <MB1>
    (b"<RECS><REC><MSH></MSH><MB>", b"<mb1>", 1),
    (b"<RECS><REC><MSH></MSH><MB>", b"<MB1/>", 4),
    (b"<RECS><REC><MSH></MSH><MB>", b"<MB11>", 4),
    (b"<RECS><REC><MSH></MSH><MB>", b"<MB3>", 3),
    (b"<RECS><REC><MSH></MSH><MB>", b"<MB2 >", 3),
    (b"<RECS><REC><MSH></MSH><MB>", b"<MB\n>", 3),
    (b"<RECS><REC><MSH></MSH><MB>", b"<M01></M01>", 2),
    (b"<RECS><REC><MSH></MSH><MB>", b"</MB1", 1),
    (b"<RECS><REC><MSH></MSH><MB>", b"1<MB2>", 0),
    // for <MB2> or </MB>
    (b"<RECS><REC><MSH></MSH><MB><MB1></MB1>", b"<MB2/>", 4),
    (b"<RECS><REC><MSH></MSH><MB><MB1></MB1>", b"<MB3>", 3),
    (b"<RECS><REC><MSH></MSH><MB><MB1></MB1>", b"</MB >", 4),
    (b"<RECS><REC><MSH></MSH><MB><MB1></MB1>", b"<P01></P01>", 1),
    // for </REC>
    (b"<RECS><REC><MSH></MSH><MB><MB1></MB1></MB>", b"</REC >", 5),
    (b"<RECS><REC><MSH></MSH><MB><MB1></MB1></MB>", b"</MSH>", 2),
    // for nothing more
    (b"<RECS></RECS>", b"\x00", 0),
];

// The first byte of a tag with which no lawful upload goes on, by the tag's mark.
fn first_wrong(mark: u8) -> Option<usize> {
    char::from(mark).to_digit(10).map(|digit| digit as usize)
}

// A tag that is right: cut it only begins a lawful upload, and whole it leaves only the byte after it wrong.
fn goes_on(rt: &(impl Abort + AllocGlobal), before: &[u8], tag: &[u8]) -> Result<(), Fail> {
    for end in 1..tag.len() {
        let place = before.len() + end;
        gives(rt, &[before, &tag[..end]], cut_short(place))?;
    }
    let place = before.len() + tag.len();
    gives(rt, &[before, tag, b"\x00"], unlawful(Elsewhere, place))
}

impl Standing<'_> {
    // A tag that is wrong, cut, alone and before other bytes.
    fn is_wrong(self, rt: &(impl Abort + AllocGlobal), cause: Cause) -> Result<(), Fail> {
        self.breaks(rt, cause)?;
        let answer = unlawful(cause, self.before.len().wrapping_add(self.wrong));
        for rest in [b"\x00", b" ", b"<", b">", b"\xa4"] {
            gives(rt, &[self.before, self.text, rest], answer)?;
        }
        Ok(())
    }

    // A tag that stands where another must: it counts only if it is whole.
    fn is_another(self, rt: &(impl Abort + AllocGlobal), refusal: Refusal) -> Result<(), Fail> {
        let (cut, _) = self.text.split_at(self.text.len().saturating_sub(1));
        Standing { text: cut, ..self }.breaks(rt, Elsewhere)?;
        for rest in [
            b"".as_slice(),
            b"\x00",
            b"x",
            b"</RECS>",
            b"<MSH>",
            b"<MB1></MB1>",
        ] {
            gives(rt, &[self.before, self.text, rest], Err(refusal))?;
        }
        Ok(())
    }
}

// Each tag behind the same bytes and each gap. A right one goes on; `stands` tries a wrong one, with its first wrong byte.
fn each_tag<F: Fn(Standing) -> Result<(), Fail>>(
    rt: &(impl Abort + AllocGlobal),
    before: &'static [u8],
    gaps: &[&'static [u8]],
    marks: &[u8; 12],
    stands: F,
) -> Result<(), Fail>
    requires { F.IsAlwaysCallable stands }
{
    for gap in gaps {
        let before = [DECLARATION, before, gap].concat(rt.alloc())?;
        for (tag, mark) in TAGS.iter().zip(marks) {
            match first_wrong(*mark) {
                None => goes_on(rt, before.as_slice(), tag)?,
                Some(wrong) => stands(Standing {
                    before: before.as_slice(),
                    text: tag,
                    wrong,
                })?,
            }
        }
    }
    Ok(())
}

#[test]
fn tags_outside_of_values(rt: HostRuntime) -> Result<(), Fail> {
    for (before, marks) in &OUTSIDE {
        each_tag(
            &rt,
            before,
            &WHITE,
            marks,
            |tag| tag.is_wrong(&rt, Elsewhere),
        )?;
    }
    // two loops that differ in the refusal: it holds the place, so that a function for both would take a closure over
    // the place, and be longer than they are
    for (before, marks) in &BEFORE_HEADER {
        each_tag(&rt, before, &WHITE, marks, |tag| {
            let place = tag.before.len();
            tag.is_another(&rt, NoHeader { place })
        })?;
    }
    for (before, marks) in &BEFORE_VISIT {
        each_tag(&rt, before, &WHITE, marks, |tag| {
            let place = tag.before.len();
            tag.is_another(&rt, NoVisit { place })
        })?;
    }
    Ok(())
}

#[test]
fn tags_in_values(rt: HostRuntime) -> Result<(), Fail> {
    let rt = &rt;
    for &(before, marks, opening, closing) in &IN_VALUES {
        each_tag(rt, before, &[b""], marks, move |tag| {
            let closes = tag.text.starts_with(b"</");
            tag.is_wrong(rt, if closes { closing } else { opening })
        })?;
    }
    Ok(())
}

#[test]
fn like_tags(rt: HostRuntime) -> Result<(), Fail> {
    for (before, text, wrong) in &LIKE_TAGS {
        let before = [DECLARATION, before].concat(rt.alloc())?;
        let standing = Standing {
            before: before.as_slice(),
            text,
            wrong: *wrong,
        };
        standing.breaks(&rt, Elsewhere)?;
    }
    Ok(())
}
