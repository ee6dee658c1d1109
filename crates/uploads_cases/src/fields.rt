// The tags of fields, in each of the three segments.
use crate::files::{DECLARATION, Standing, gives};
use reader::faults::Cause::{self, ClosingId, Elsewhere};
use std::test::Fail;

// What stands before and behind the fields of each segment.
const AROUND: [(&[u8], &[u8]); 3] = [
    (
        b"<RECS><REC><MSH>",
        b"</MSH><MB><MB1></MB1></MB></REC></RECS>",
    ),
    (
        b"<RECS><REC><MSH></MSH><MB><MB1>",
        b"</MB1></MB></REC></RECS>",
    ),
    (
        b"<RECS><REC><MSH></MSH><MB><MB1></MB1><MB2>",
        b"</MB2></MB></REC></RECS>",
    ),
];

// Text where a field may stand, the first of its bytes with which no lawful upload goes on, and the cause.
const WRONG: [(&[u8], usize, Cause); 68] = [
    // no tag
    (b"x", 0, Elsewhere),
    (b"M01>", 0, Elsewhere),
    (b">", 0, Elsewhere),
    (b"/", 0, Elsewhere),
    (b"&", 0, Elsewhere),
    (b"\xa4\x40", 0, Elsewhere),
    // the capital letter
    (b"<>", 1, Elsewhere),
    (b"<m01>x</m01>", 1, Elsewhere),
    (b"<@00></@00>", 1, Elsewhere),
    (b"<[00></[00>", 1, Elsewhere),
    (b"<1M0></1M0>", 1, Elsewhere),
    (b"<001></001>", 1, Elsewhere),
    (b"< M01>x</M01>", 1, Elsewhere),
    (b"<\tM01>", 1, Elsewhere),
    (b"<<M01>", 1, Elsewhere),
    (b"<?M01>", 1, Elsewhere),
    (b"<!-- -->", 1, Elsewhere),
    (b"<\xa401>", 1, Elsewhere),
    // the digits
    (b"<M></M>", 2, Elsewhere),
    (b"<MM1></MM1>", 2, Elsewhere),
    (b"<M/1>", 2, Elsewhere),
    (b"<M:1>", 2, Elsewhere),
    (b"<M 1>", 2, Elsewhere),
    (b"<M0></M0>", 3, Elsewhere),
    (b"<M0A></M0A>", 3, Elsewhere),
    (b"<M0/>", 3, Elsewhere),
    (b"<M0:>", 3, Elsewhere),
    (b"<M0 >", 3, Elsewhere),
    // the end of the opening tag
    (b"<M01x</M01>", 4, Elsewhere),
    (b"<M01 >x</M01>", 4, Elsewhere),
    (b"<M01\n>x</M01>", 4, Elsewhere),
    (b"<M001>x</M001>", 4, Elsewhere),
    (b"<M01/>", 4, Elsewhere),
    (b"<M01<", 4, Elsewhere),
    (b"<M01</M01>", 4, Elsewhere),
    // the slash of the closing tag
    (b"<M01>x<M01>", 7, Elsewhere),
    (b"<M01>x<M02>y</M02>", 7, Elsewhere),
    (b"<M01><M02>y</M02></M01>", 6, Elsewhere),
    (b"<M01>x< /M01>", 7, Elsewhere),
    (b"<M01>x<\n/M01>", 7, Elsewhere),
    (b"<M01>x<>", 7, Elsewhere),
    (b"<M01>x<<", 7, Elsewhere),
    // its ID
    (b"<M01>x</N01>", 8, ClosingId),
    (b"<M01>x</m01>", 8, ClosingId),
    (b"<M01>x</>", 8, ClosingId),
    (b"<M01>x</ M01>", 8, ClosingId),
    (b"<M01>x</01>", 8, ClosingId),
    (b"<M01>x</<", 8, ClosingId),
    (b"<M01></L01>", 7, ClosingId),
    (b"<M01>x</M11>", 9, ClosingId),
    (b"<M12>x</M21>", 9, ClosingId),
    (b"<M01>x</M>", 9, ClosingId),
    (b"<M01>x</M 01>", 9, ClosingId),
    (b"<M01>x</MSH>", 9, ClosingId),
    (b"<M01>\xa4\x40</M\xa4\x40>", 10, ClosingId),
    (b"<M01></M02>", 9, ClosingId),
    (b"<M01>x</M02>", 10, ClosingId),
    (b"<M01>x</M0>", 10, ClosingId),
    (b"<Z99>x</Z9:>", 10, ClosingId),
    // the end of the closing tag
    (b"<M01>x</M01x", 11, Elsewhere),
    (b"<M01>x</M01<", 11, Elsewhere),
    (b"<M01>x</M01 >", 11, Elsewhere),
    (b"<M01>x</M011>", 11, Elsewhere),
    (b"<M01>x</M01/>", 11, Elsewhere),
    // what is in no field
    (b"</M01>", 3, Elsewhere),
    (b"</N01>", 2, Elsewhere),
    (b"<M01>x</M01>x", 12, Elsewhere),
    (b"<M01>x</M01></M01>", 15, Elsewhere),
];

// Lawful fields.
const RIGHT: [&[u8]; 12] = [
    b"",
    b"<A00></A00>",
    b"<Z99></Z99>",
    b"<M09>x</M09><M90>x</M90>",
    b"<M01>x</M01><M01>x</M01><M01></M01>",
    b"<M02>x</M02><M01>x</M01>",
    b"<R01>R</R01><B01>M</B01>",
    b"<M01>M01</M01>",
    b"<M01>/M01</M01>",
    b"<M01>x</M01> <M02>x</M02>\t<M03>x</M03>\r<M04>x</M04>\n",
    b" \t\r\n<M01> </M01>\r\n\r\n",
    b"<M06>3501200001</M06><N05>3501200001</N05>",
];

#[test]
fn fields(rt: HostRuntime) -> Result<(), Fail> {
    for (before, after) in &AROUND {
        let declared = [DECLARATION, before].concat(rt.alloc())?;
        for (text, wrong, cause) in &WRONG {
            let standing = Standing {
                before: declared.as_slice(),
                text,
                wrong: *wrong,
            };
            standing.breaks(&rt, *cause)?;
        }
        for text in &RIGHT {
            gives(&rt, &[DECLARATION, before, text, after], Ok(1))?;
        }
    }
    Ok(())
}
