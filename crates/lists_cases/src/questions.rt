// Questions to lists of rows, and to any lists.
use calendar::day::Day;
use lists::code_lists::CodeLists;
use lists::ordered_lists::{NotMade, OrderedLists};
use lists::row::Row;
use std::alloc::Global;
use std::process::Abort;
use std::test::Fail;

// A row: list and code, first and last day.
pub type Written = (u8, &'static [u8], &'static [u8], &'static [u8]);

// A list, a code, a day, and whether the list has the code on the day.
pub type Question = (u8, &'static [u8], &'static [u8; 7], bool);

const ROWS: [Written; 17] = [
    (1, b"A", b"1130101", b"1131231"),
    (1, b"A0", b"1130615", b"1130615"),
    (1, b"A00", b"0010101", b"9991231"),
    (1, b"A0000000000B", b"1130229", b"1130301"),
    (1, b"A1", b"1130101", b"1130131"),
    (1, b"B", b"1130201", b"1130229"),
    (2, b"A", b"1140101", b"1141231"),
    (2, b"AA", b"1130101", b"1131231"),
    (3, b"\x00", b"1130101", b"1131231"),
    (3, b"\x00\x00", b"1140101", b"1141231"),
    (3, b"\x00\xff", b"1130101", b"1131231"),
    (3, b"a", b"1130101", b"1131231"),
    (3, b"\xff", b"1130101", b"1131231"),
    (3, b"\xff\x00", b"1140101", b"1141231"),
    (
        4,
        b"\xff\xff\xff\xff\xff\xff\xff\xff\xff\xff\xff\xff",
        b"1130101",
        b"1131231",
    ),
    (6, b"3501200000", b"1090101", b"9991231"),
    (7, b"X999", b"1130101", b"1131231"),
];

const QUESTIONS: [Question; 66] = [
    // the ends of a span
    (1, b"A", b"1121231", false),
    (1, b"A", b"1130101", true),
    (1, b"A", b"1130102", true),
    (1, b"A", b"1130630", true),
    (1, b"A", b"1131230", true),
    (1, b"A", b"1131231", true),
    (1, b"A", b"1140101", false),
    (1, b"A0", b"1130614", false),
    (1, b"A0", b"1130615", true),
    (1, b"A0", b"1130616", false),
    (1, b"A00", b"0010101", true),
    (1, b"A00", b"9991231", true),
    (1, b"A0000000000B", b"1130228", false),
    (1, b"A0000000000B", b"1130229", true),
    (1, b"A0000000000B", b"1130301", true),
    (1, b"A0000000000B", b"1130302", false),
    (1, b"A1", b"1121231", false),
    (1, b"A1", b"1130131", true),
    (1, b"A1", b"1130201", false),
    (1, b"B", b"1130131", false),
    (1, b"B", b"1130201", true),
    (1, b"B", b"1130229", true),
    (1, b"B", b"1130301", false),
    // the same day of another month or year
    (1, b"A0", b"1120615", false),
    (1, b"A0", b"1140615", false),
    (1, b"A0", b"1130515", false),
    (1, b"A0", b"1130715", false),
    // beginnings of codes, and what goes on from them
    (1, b"", b"1130615", false),
    (1, b"A000", b"1130615", false),
    (1, b"A0000000000", b"1130229", false),
    (1, b"A0000000000C", b"1130229", false),
    (1, b"A0000000000BB", b"1130229", false),
    (1, b"A0000000000B0", b"1130229", false),
    (1, b"A\x00", b"1130615", false),
    (1, b"A0\x00", b"1130615", false),
    (1, b" A", b"1130615", false),
    (1, b"A ", b"1130615", false),
    (1, b"a", b"1130615", false),
    (1, b"A2", b"1130615", false),
    (1, b"C", b"1130615", false),
    // another list
    (0, b"A", b"1130615", false),
    (2, b"A", b"1130615", false),
    (2, b"A", b"1140615", true),
    (1, b"AA", b"1130615", false),
    (2, b"AA", b"1130615", true),
    (3, b"A", b"1130615", false),
    (3, b"AA", b"1130615", false),
    (4, b"A", b"1130615", false),
    (8, b"A", b"1130615", false),
    (255, b"A", b"1130615", false),
    // bytes that are no letters
    (3, b"\x00", b"1130615", true),
    (3, b"\x00\x00", b"1130615", false),
    (3, b"\x00\x00", b"1140615", true),
    (3, b"\x00\x00\x00", b"1140615", false),
    (3, b"\x00\xff", b"1130615", true),
    (3, b"a", b"1130615", true),
    (3, b"\xff", b"1130615", true),
    (3, b"\xff\x00", b"1130615", false),
    (3, b"\xff\x00", b"1140615", true),
    (3, b"\xff\xff", b"1140615", false),
    (
        4,
        b"\xff\xff\xff\xff\xff\xff\xff\xff\xff\xff\xff\xff",
        b"1130615",
        true,
    ),
    (
        4,
        b"\xff\xff\xff\xff\xff\xff\xff\xff\xff\xff\xff",
        b"1130615",
        false,
    ),
    // lists by rows know no shape
    (5, b"A", b"1130615", false),
    (6, b"3501200000", b"1090101", true),
    (6, b"3501200001", b"1090101", false),
    (7, b"A000", b"1130615", false),
];

pub(crate) fn made(alloc: Global, written: &[Written]) -> Result<OrderedLists, NotMade> {
    let rows: Vec<Row<'_>> = written
        .iter()
        .map(|(list, code, first, last)| Row {
            list: *list,
            code,
            first,
            last,
        })
        .collect(alloc)?;
    OrderedLists::new(alloc, rows.as_slice())
}

// Asks each question, whatever kind of lists it is put to.
pub(crate) fn answers<L: CodeLists>(
    rt: &impl Abort,
    lists: &L,
    questions: &[Question],
) -> Result<(), Fail> {
    for (list, code, day, answer) in questions {
        let day = Day::read(*day).ok_or("no day")?;
        assert_eq!(rt;
            lists.contains(*list, code, day),
            *answer,
            "{list} {code:?} {day}"
        );
    }
    Ok(())
}

#[test]
fn rows(rt: HostRuntime) -> Result<(), Fail> {
    let lists = made(rt.alloc(), &ROWS).ok().ok_or("not made")?;
    answers(&rt, &lists, &QUESTIONS)
}

// With no rows the lists have no code.
#[test]
fn no_rows(rt: HostRuntime) -> Result<(), Fail> {
    let lists = made(rt.alloc(), &[]).ok().ok_or("not made")?;
    let day = Day::read(b"1130615").ok_or("no day")?;
    for (list, code, _, _) in &QUESTIONS {
        assert!(rt; !lists.contains(*list, code, day));
    }
    Ok(())
}
