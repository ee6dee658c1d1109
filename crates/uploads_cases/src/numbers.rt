// How each refusal is told: by number, cause and place.
use reader::faults::{Cause, Refusal};

type Told = (u8, Option<u8>, Option<usize>);

const REFUSALS: [(Refusal, Told); 12] = [
    (Refusal::Length, (1, None, None)),
    (Refusal::Declaration { place: 35 }, (2, None, Some(35))),
    (
        Refusal::Unlawful {
            cause: Cause::Value,
            place: 58,
        },
        (3, Some(1), Some(58)),
    ),
    (
        Refusal::Unlawful {
            cause: Cause::ClosingId,
            place: 62,
        },
        (3, Some(2), Some(62)),
    ),
    (
        Refusal::Unlawful {
            cause: Cause::Elsewhere,
            place: 113,
        },
        (3, Some(3), Some(113)),
    ),
    (Refusal::NoHeader { place: 48 }, (4, None, Some(48))),
    (Refusal::NoVisit { place: 63 }, (5, None, Some(63))),
    (Refusal::CutShort { place: 74 }, (6, None, Some(74))),
    (Refusal::Foreign { place: 84 }, (7, None, Some(84))),
    (Refusal::TooMany { place: 11063 }, (8, None, Some(11063))),
    (Refusal::Call, (9, None, None)),
    (Refusal::Row { place: 5 }, (10, None, Some(5))),
];

fn told(refusal: Refusal) -> Told {
    (
        refusal.number(),
        refusal.cause().map(u8::from),
        refusal.place(),
    )
}

#[test]
fn refusals(rt: HostRuntime) {
    for (refusal, numbers) in &REFUSALS {
        assert_eq!(rt; told(*refusal), *numbers, "{refusal:?}");
    }
}
