// Rule 26 by lists of rows: which codes stand in them, on the day of the visit, and which beds need not.
use grammar::states::FieldId;
use judging::input::judge;
use judging::upload::BLANK;
use lists::ordered_lists::OrderedLists;
use lists::row::Row;
use std::test::Fail;

// An input up to a field more in MB1, and what follows. The visit is on 1130215, and the upload comes on 1130229. Without more,
// all that its category requires is written.
const FRONT: &[u8] = b"3501200000 1130229
<?xml version=\"1.0\" encoding=\"Big5\"?><RECS><REC><MSH><H00>1</H00><H01>A</H01></MSH><MB><MB1>\
<M01>SAM000000001</M01><M02>000012345678</M02><M03>A123456789</M03><M04>0800101</M04><M05>3501200000</M05>\
<M06>B223456789</M06><M07>01</M07><M11>1130215093000</M11><M12>1</M12><M13>0012</M13><M14>c2lnbmVk</M14>\
<M15>35012000000000000001</M15><M23>0</M23><M35>J00</M35><M44>340</M44><M45>50</M45><M51>01</M51>";

const BACK: &[u8] = b"</MB1></MB></REC></RECS>";

// List and code, first and last day. That of the sender is the last row.
type Listed = (u8, &'static [u8], &'static [u8], &'static [u8]);

const ROWS: [Listed; 6] = [
    (2, b"B223456789", b"1130101", b"1131231"),
    (4, b"J00", b"1130101", b"1131231"),
    (6, b"W0101", b"1130101", b"1130214"),
    (6, b"W0102", b"1130215", b"1130215"),
    (6, b"W0103", b"1130216", b"1131231"),
    (6, b"W0104", b"1130101", b"1130215"),
];

const SENDER: Listed = (1, b"3501200000", b"1130101", b"1131231");

// A field more, and whether a code of it is missed: its tag is then five bytes before the fault.
type Case = (&'static [u8], bool);

const CASES: [Case; 13] = [
    (b"", false),
    // its span is over, has just begun, is to come, and ends on the day
    (b"<M50>W0101</M50>", true),
    (b"<M50>W0102</M50>", false),
    (b"<M50>W0103</M50>", true),
    (b"<M50>W0104</M50>", false),
    // no row has it; nor is it that of another list
    (b"<M50>W0105</M50>", true),
    (b"<M50>J00</M50>", true),
    // a waiting room, a day ward, the emergency room
    (b"<M50>RRRRR</M50>", false),
    (b"<M50>DW</M50>", false),
    (b"<M50>ER</M50>", false),
    (b"<M50>rrrrr</M50>", true),
    // only a bed is excused, and a list without rows has no code
    (b"<M36>ER</M36>", true),
    (b"<M41>0FT44ZZ</M41>", true),
];

fn row(listed: Listed) -> Row<'static> {
    let (list, code, first, last) = listed;
    Row {
        list,
        code,
        first,
        last,
    }
}

// Where the upload of an input begins, and where a value does behind the front of it.
const UPLOAD: usize = 19;

const VALUE: usize = 5;

#[test]
fn codes(rt: HostRuntime) -> Result<(), Fail> {
    let mut listed = [row(SENDER); 7];
    for (i, written) in ROWS.iter().enumerate() {
        listed[i + 1] = row(*written);
    }
    let lists = OrderedLists::new(rt.alloc(), &listed)
        .ok()
        .ok_or("not made")?;
    for (more, is_missed) in &CASES {
        let input = [FRONT, *more, BACK].concat(rt.alloc())?;
        let mut rows = [BLANK; 2];
        let counts = judge(&input, &lists, &mut rows).ok().ok_or("refused")?;
        assert_eq!(rt; counts.faults, usize::from(*is_missed), "{more:?}");
        assert_eq!(rt; counts.accepted, usize::from(!*is_missed), "{more:?}");
        if *is_missed {
            assert_eq!(rt; rows[0].rule.number(), 26, "{more:?}");
            assert_eq!(rt; rows[0].place, FRONT.len() - UPLOAD + VALUE, "{more:?}");
        }
        assert_eq!(rt; rows[1].record, 0);
    }
    Ok(())
}

// Where the list of senders lacks the sender, its M05 is missed.
#[test]
fn sender(rt: HostRuntime) -> Result<(), Fail> {
    let mut listed = [row(SENDER); 6];
    for (i, written) in ROWS.iter().enumerate() {
        listed[i] = row(*written);
    }
    let lists = OrderedLists::new(rt.alloc(), &listed)
        .ok()
        .ok_or("not made")?;
    let input = [FRONT, BACK].concat(rt.alloc())?;
    let mut rows = [BLANK; 2];
    let counts = judge(&input, &lists, &mut rows).ok().ok_or("refused")?;
    assert_eq!(rt; counts.faults, 1);
    assert_eq!(rt; rows[0].rule.number(), 26);
    let FieldId { letter, tens, ones } = rows[0].field;
    assert_eq!(rt; [letter, tens, ones], *b"M05");
    Ok(())
}
