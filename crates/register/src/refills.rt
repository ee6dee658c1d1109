// Which refills of a prescription a record takes: a set of the numbers 1 to 9.
ghost use Rattle.std.specs.Prelude.{◌≡◌, ℕ, ◌&&◌, ◌||◌, ◌==◌};

#[derive(Clone, Copy, PartialEq, Eq, Debug)]
pub struct Refills {
    // whether the refill one above the index is in it
    taken: [bool; 9],
}

impl Refills {
    ghost use Rattle.register.specs.Refills.{no_refills, with_refill, has_refill, is_refill};

    // None of them.
    pub fn new() -> Refills
        ensures { result ≡ no_refills }
    {
        Refills { taken: [false; 9] }
    }

    // Puts a refill into it, by its number and not its ASCII digit. Any other number than 1 to 9 changes nothing.
    pub fn insert(&mut self, refill: u8)
        ensures value { self.new ≡ with_refill self.old refill }
        ensures members { (n : ℕ) → has_refill self.new n ≡ (has_refill self.old n || (n == refill && is_refill n)) }
    {
        if let 1..=9 = refill {
            self.taken[usize::from(refill) - 1] = true;
        }
    }

    pub fn contains(&self, refill: u8) -> bool
        ensures { result ≡ has_refill self.now refill }
    {
        match refill {
            1..=9 => self.taken[usize::from(refill) - 1],
            _ => false,
        }
    }
}
