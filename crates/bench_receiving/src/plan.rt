// How much is measured.

#[derive(Clone, Copy, PartialEq, Eq, Debug)]
pub struct Plan {
    // for how many entries the registers are made
    pub entries: usize,
    // how many records the uploads have
    pub visits: usize,
    pub dispensings: usize,
    // how often an upload is received: the least time counts
    pub passes: usize,
    // whether times are printed, or what became of the uploads
    pub is_timed: bool,
}

impl Plan {
    pub const FULL: Plan = Plan {
        entries: 65_536,
        visits: 4_096,
        dispensings: 64,
        passes: 15,
        is_timed: true,
    };

    pub const TRIAL: Plan = Plan {
        entries: 8_192,
        visits: 4_096,
        dispensings: 64,
        passes: 1,
        is_timed: false,
    };
}
