// Rows of which at least one is bad, and rows of which none is.
use crate::questions::{Written, made};
use lists::ordered_lists::NotMade;
use reader::faults::Refusal;

const RIGHT: Written = (1, b"A", b"1130101", b"1131231");

const LATER: Written = (1, b"B", b"1130101", b"1131231");

// Rows, and the index of the first bad one.
const BAD: [(&[Written], usize); 39] = [
    // lists
    (&[(0, b"A", b"1130101", b"1131231")], 0),
    (&[(8, b"A", b"1130101", b"1131231")], 0),
    (&[(9, b"A", b"1130101", b"1131231")], 0),
    (&[(255, b"A", b"1130101", b"1131231")], 0),
    (&[RIGHT, (8, b"A", b"1130101", b"1131231")], 1),
    (&[(0, b"A", b"1130101", b"1131231"), RIGHT], 0),
    // lengths of codes
    (&[(1, b"", b"1130101", b"1131231")], 0),
    (&[(1, b"ABCDEFGHIJKLM", b"1130101", b"1131231")], 0),
    (
        &[RIGHT, (1, b"ABCDEFGHIJKLM", b"1130101", b"1131231"), LATER],
        1,
    ),
    (
        &[(1, b"ABCDEFGHIJKLMNOPQRSTUVWXYZ", b"1130101", b"1131231")],
        0,
    ),
    (&[RIGHT, (2, b"", b"1130101", b"1131231")], 1),
    // days
    (&[(1, b"A", b"1120229", b"1131231")], 0),
    (&[(1, b"A", b"1130101", b"1130230")], 0),
    (&[(1, b"A", b"0000101", b"1131231")], 0),
    (&[(1, b"A", b"1131301", b"1131301")], 0),
    (&[(1, b"A", b"1130100", b"1131231")], 0),
    (&[(1, b"A", b"", b"1131231")], 0),
    (&[(1, b"A", b"1130101", b"")], 0),
    (&[(1, b"A", b"113010", b"1131231")], 0),
    (&[(1, b"A", b"11301011", b"1131231")], 0),
    (&[(1, b"A", b"1130101083000", b"1131231")], 0),
    (&[(1, b"A", b"113010A", b"1131231")], 0),
    (&[(1, b"A", b"1130101", b"113 231")], 0),
    // the last before the first
    (&[(1, b"A", b"1130102", b"1130101")], 0),
    (&[(1, b"A", b"1130201", b"1130131")], 0),
    (&[(1, b"A", b"1140101", b"1131231")], 0),
    (&[RIGHT, (1, b"B", b"1130102", b"1130101")], 1),
    // not above the row before
    (&[RIGHT, RIGHT], 1),
    (&[RIGHT, (1, b"A", b"1140101", b"1141231")], 1),
    (&[LATER, RIGHT], 1),
    (&[(1, b"A0", b"1130101", b"1131231"), RIGHT], 1),
    (&[(2, b"A", b"1130101", b"1131231"), LATER], 1),
    (&[RIGHT, LATER, RIGHT], 2),
    (&[RIGHT, LATER, LATER, RIGHT], 2),
    (
        &[
            (3, b"\xff", b"1130101", b"1131231"),
            (3, b"\x00", b"1130101", b"1131231"),
        ],
        1,
    ),
    (
        &[
            (3, b"a", b"1130101", b"1131231"),
            (3, b"Z", b"1130101", b"1131231"),
        ],
        1,
    ),
    // two are bad
    (
        &[
            RIGHT,
            (1, b"B", b"1130101", b"1130100"),
            (0, b"A", b"1130101", b"1131231"),
        ],
        1,
    ),
    (&[LATER, RIGHT, (0, b"C", b"1130101", b"1131231")], 1),
    (&[RIGHT, LATER, (9, b"", b"", b"")], 2),
];

const GOOD: [&[Written]; 8] = [
    &[],
    &[RIGHT],
    &[RIGHT, LATER],
    &[RIGHT, (1, b"A0", b"1130101", b"1131231"), LATER],
    &[LATER, (2, b"A", b"1130101", b"1131231")],
    &[
        (3, b"\x00", b"1130101", b"1131231"),
        (3, b"\xff", b"1130101", b"1131231"),
    ],
    &[(7, b"ABCDEFGHIJKL", b"1130229", b"1130229")],
    &[(1, b"A", b"0010101", b"9991231")],
];

#[test]
fn bad_rows(rt: HostRuntime) {
    for (rows, place) in &BAD {
        let told = made(rt.alloc(), rows).err();
        assert_eq!(rt;
            told,
            Some(NotMade::Refused(Refusal::Row { place: *place }))
        );
    }
}

#[test]
fn good_rows(rt: HostRuntime) {
    for rows in &GOOD {
        assert!(rt; made(rt.alloc(), rows).is_ok());
    }
}
