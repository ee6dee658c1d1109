// A set of the numbers of orders, 0 to 999.
ghost use Rattle.std.specs.Prelude.{◌≡◌, ℕ, ◌&&◌, ◌||◌, ◌==◌, false, nat_lt};
ghost use Rattle.marks.specs.Numbers.{number_in};

#[derive(Clone, Copy)]
pub struct OrderNumbers {
    // whether the index is in it
    marks: [bool; 1000],
}

impl OrderNumbers {
    // None of them.
    pub fn new() -> OrderNumbers
        ensures { (n : ℕ) → number_in result n ≡ false }
    {
        OrderNumbers {
            marks: [false; 1000],
        }
    }

    // Puts a number into it. One above 999 changes nothing.
    pub fn insert(&mut self, number: usize)
        ensures members { (n : ℕ) → number_in self.new n ≡ (number_in self.old n || (n == number && nat_lt n 1000)) }
    {
        if number < 1000 {
            self.marks[number] = true;
        }
    }

    // A number above 999 is never in it.
    pub fn contains(&self, number: usize) -> bool
        ensures { result ≡ number_in self.now number }
    {
        number < 1000 && self.marks[number]
    }
}
