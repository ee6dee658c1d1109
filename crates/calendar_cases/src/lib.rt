// The calendar on tables of cases. The expected values come from Python's datetime, not from this code.
#![tactic(auto)]

#[cfg(test)]
mod cases;

#[cfg(test)]
mod tests {
    use crate::cases::{DUE, MOMENTS, NO_DAYS, NO_MOMENTS, RISING};
    use calendar::day::Day;
    use calendar::moment::Moment;
    use std::test::Fail;

    #[test]
    fn due_days(rt: HostRuntime) {
        for (visit, due) in &DUE {
            assert!(rt; Day::read(due).is_some());
            assert_eq!(rt; Day::read(visit).map(Day::due), Day::read(due));
        }
    }

    #[test]
    fn unreal_days(rt: HostRuntime) {
        for bytes in NO_DAYS {
            assert!(rt; Day::read(bytes).is_none());
        }
    }

    #[test]
    fn moments(rt: HostRuntime) {
        for bytes in &MOMENTS {
            assert!(rt; Moment::read(bytes).is_some());
        }
        for bytes in NO_MOMENTS {
            assert!(rt; Moment::read(bytes).is_none());
        }
    }

    // Each day is after the one before it, which is not past the due day of a visit on it.
    #[test]
    fn order(rt: HostRuntime) -> Result<(), Fail> {
        for [a, b] in RISING.array_windows::<2>() {
            let earlier = Day::read(a).ok_or("no day")?;
            let later = Day::read(b).ok_or("no day")?;
            assert!(rt; earlier < later);
            assert!(rt; !(later < earlier));
            assert!(rt; !earlier.is_past_due(later));
        }
        Ok(())
    }
}
