// How much is measured.

#[derive(Clone, Copy, PartialEq, Eq, Debug)]
pub struct Plan {
    // for how many entries the registers are made
    pub small: usize,
    pub great: usize,
    // how many look-ups one pass has
    pub look_ups: usize,
    // how many passes there are: the least time counts
    pub passes: usize,
    // whether ratios of times are printed, or what was found
    pub is_timed: bool,
}

impl Plan {
    pub const FULL: Plan = Plan {
        small: 4_096,
        great: 65_536,
        look_ups: 65_536,
        passes: 25,
        is_timed: true,
    };

    pub const TRIAL: Plan = Plan {
        small: 100,
        great: 200,
        look_ups: 100,
        passes: 1,
        is_timed: false,
    };
}
