// Dice that fall the same on every machine: a number of 64 bits, multiplied and added to, whose high half counts.
ghost use Rattle.std.specs.Prelude.{◌≡◌, ◌<◌, max};
ghost use Rattle.std.specs.List.Sorted.{IsPermutation};

const MULTIPLIER: u64 = 6_364_136_223_846_793_005;

const ADDEND: u64 = 1_442_695_040_888_963_407;

#[derive(Clone, Copy, PartialEq, Eq, Debug)]
pub struct Dice {
    pub state: u64,
}

impl Dice {
    ghost use Rattle.trials.specs.Dice.{after_roll, face};

    // One of so many faces, from 0 on; 0, if there are none.
    pub fn roll(&mut self, faces: usize) -> usize
        ensures value { result ≡ face (after_roll self.old) faces }
        ensures after { self.new ≡ after_roll self.old }
        ensures range { result < max faces 1 }
    {
        self.state = self.state.wrapping_mul(MULTIPLIER).wrapping_add(ADDEND);
        (self.state >> 32) as usize % faces.max(1)
    }

    // Brings the numbers into an order by the dice. Which order that is, and how the dice lie then, is left open.
    pub fn shuffle(&mut self, numbers: &mut [u64])
        ensures { IsPermutation numbers.old numbers.new }
    {
        for i in 0..numbers.len() {
            let j = self.roll(i + 1);
            numbers.swap(i, j);
        }
    }
}
