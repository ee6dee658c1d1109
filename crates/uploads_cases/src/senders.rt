// The sender as the fields M05 write it.
use crate::files::{Answer, DECLARATION, RIGHT_CALL, answer_to};
use reader::faults::Refusal::Foreign;
use std::alloc::{AllocError, Global};
use std::process::Abort;
use std::test::Fail;
use uploads::calls::Call;

// The fields of <MSH>, <MB1> and <MB2> in an upload of the sender 3501200000, and what becomes of it. The fields of
// <MSH> begin at place 53, those of <MB1> fifteen bytes behind them, and those of <MB2> eleven behind those.
const FIELDS: [(&[u8], &[u8], &[u8], Answer); 33] = [
    // unwritten
    (b"", b"", b"", Ok(1)),
    (
        b"<M05></M05>",
        b"<M05></M05>",
        b"<M05></M05><M05></M05>",
        Ok(1),
    ),
    // the sender
    (b"<M05>3501200000</M05>", b"", b"", Ok(1)),
    (b"", b"<M05>3501200000</M05>", b"", Ok(1)),
    (b"", b"", b"<M05>3501200000</M05>", Ok(1)),
    (
        b"<M05>3501200000</M05>",
        b"<M05>3501200000</M05>",
        b"<M05>3501200000</M05>",
        Ok(1),
    ),
    (
        b"<M05>3501200000</M05> <M05></M05> <M05>3501200000</M05>",
        b"",
        b"",
        Ok(1),
    ),
    // a foreign sender in each segment
    (
        b"<M05>3501200001</M05>",
        b"",
        b"",
        Err(Foreign { place: 58 }),
    ),
    (
        b"",
        b"<M05>3501200001</M05>",
        b"",
        Err(Foreign { place: 73 }),
    ),
    (
        b"",
        b"",
        b"<M05>3501200001</M05>",
        Err(Foreign { place: 84 }),
    ),
    (
        b"<M05>3501200000</M05>",
        b"<M05>3501200001</M05>",
        b"",
        Err(Foreign { place: 94 }),
    ),
    (
        b"<M05>3501200000</M05>",
        b"",
        b"<M05>3501200001</M05>",
        Err(Foreign { place: 105 }),
    ),
    (
        b"<M05>3501200000</M05>",
        b"<M05>3501200000</M05>",
        b"<M05>3501200001</M05>",
        Err(Foreign { place: 126 }),
    ),
    (
        b"<M05></M05>",
        b"<M05></M05>",
        b"<M05>3501200001</M05>",
        Err(Foreign { place: 106 }),
    ),
    // the first of several
    (
        b"<M05>3501200001</M05>",
        b"<M05>3501200002</M05>",
        b"<M05>3501200003</M05>",
        Err(Foreign { place: 58 }),
    ),
    (
        b"",
        b"<M05>3501200002</M05>",
        b"<M05>3501200003</M05>",
        Err(Foreign { place: 73 }),
    ),
    (
        b"<M05>3501200001</M05><M05>3501200001</M05>",
        b"",
        b"",
        Err(Foreign { place: 58 }),
    ),
    // behind the sender, before it, and behind one that is empty
    (
        b"<M05>3501200000</M05><M05>3501200001</M05>",
        b"",
        b"",
        Err(Foreign { place: 79 }),
    ),
    (
        b"<M05>3501200001</M05><M05>3501200000</M05>",
        b"",
        b"",
        Err(Foreign { place: 58 }),
    ),
    (
        b"<M05></M05><M05>3501200001</M05>",
        b"",
        b"",
        Err(Foreign { place: 69 }),
    ),
    (
        b"",
        b"<M05>3501200000</M05> <M05>3501200001</M05>",
        b"",
        Err(Foreign { place: 95 }),
    ),
    (
        b"",
        b"<M01>x</M01><M05>3501200001</M05><M05>3501200000</M05>",
        b"",
        Err(Foreign { place: 85 }),
    ),
    // other values
    (
        b"<M05>350120000</M05>",
        b"",
        b"",
        Err(Foreign { place: 58 }),
    ),
    (
        b"<M05>35012000000</M05>",
        b"",
        b"",
        Err(Foreign { place: 58 }),
    ),
    (
        b"<M05>3501200000 </M05>",
        b"",
        b"",
        Err(Foreign { place: 58 }),
    ),
    (
        b"<M05> 3501200000</M05>",
        b"",
        b"",
        Err(Foreign { place: 58 }),
    ),
    (b"<M05> </M05>", b"", b"", Err(Foreign { place: 58 })),
    (b"<M05>3</M05>", b"", b"", Err(Foreign { place: 58 })),
    (
        b"<M05>\xa4\x40\xa4\x40\xa4\x40\xa4\x40\xa4\x40</M05>",
        b"",
        b"",
        Err(Foreign { place: 58 }),
    ),
    (
        b"<M05>4501200000</M05>",
        b"",
        b"",
        Err(Foreign { place: 58 }),
    ),
    // other fields
    (
        b"<M04>3501200001</M04>",
        b"<M06>3501200001</M06>",
        b"<M15>1</M15><M50>2</M50>",
        Ok(1),
    ),
    (
        b"<N05>3501200001</N05>",
        b"<L05>3501200001</L05>",
        b"<A05>x</A05>",
        Ok(1),
    ),
    // in a second record
    (
        b"",
        b"",
        b"</MB2></MB></REC><REC><MSH><M05>3501200001</M05></MSH><MB><MB1></MB1><MB2>",
        Err(Foreign { place: 111 }),
    ),
];

// The sender of another call, the fields of <MSH>, and what becomes of the upload.
const LETTERS: [(&[u8], &[u8], Answer); 6] = [
    (b"AB12CD34EF", b"<M05>AB12CD34EF</M05>", Ok(1)),
    (
        b"AB12CD34EF",
        b"<M05>ab12cd34ef</M05>",
        Err(Foreign { place: 58 }),
    ),
    (
        b"AB12CD34EF",
        b"<M05>AB12CD34EE</M05>",
        Err(Foreign { place: 58 }),
    ),
    (
        b"AB12CD34EF",
        b"<M05>3501200000</M05>",
        Err(Foreign { place: 58 }),
    ),
    (b"0000000000", b"<M05>0000000000</M05>", Ok(1)),
    (
        b"0000000000",
        b"<M05>00000000000</M05>",
        Err(Foreign { place: 58 }),
    ),
];

fn with_fields(
    alloc: Global,
    header: &[u8],
    visit: &[u8],
    order: &[u8],
) -> Result<Vec<u8>, AllocError> {
    [
        DECLARATION,
        b"<RECS><REC><MSH>",
        header,
        b"</MSH><MB><MB1>",
        visit,
        b"</MB1><MB2>",
        order,
        b"</MB2></MB></REC></RECS>",
    ]
    .concat(alloc)
}

fn comes_to<'a>(rt: &impl Abort, sender: &'a [u8], upload: &'a [u8], answer: Answer) {
    let call = Call {
        sender,
        upload,
        ..RIGHT_CALL
    };
    assert_eq!(rt; answer_to(call), answer, "{upload:?} from {sender:?}");
}

#[test]
fn foreign_senders(rt: HostRuntime) -> Result<(), Fail> {
    for (header, visit, order, answer) in &FIELDS {
        let upload = with_fields(rt.alloc(), header, visit, order)?;
        comes_to(&rt, RIGHT_CALL.sender, upload.as_slice(), *answer);
    }
    for (sender, header, answer) in &LETTERS {
        let upload = with_fields(rt.alloc(), header, b"", b"")?;
        comes_to(&rt, sender, upload.as_slice(), *answer);
    }
    Ok(())
}
