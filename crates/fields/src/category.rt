// The category of a record, which field M07 names.
ghost use Rattle.fields.specs.Categories.{code_of, column_of, in_zero, in_a, in_b, in_c, in_d, in_e, category_of, category_in};
ghost use Rattle.fields.specs.Inverse.{Inverse};
ghost use Rattle.std.specs.Prelude.{◌≡◌, ◌<◌};

// In the order of the columns of the printed tables of needs.
#[derive(Clone, Copy, Debug)]
pub enum Category {
    C01,
    C02,
    C03,
    C04,
    C05,
    C06,
    C07,
    C08,
    C09,
    AJ,
    AA,
    AB,
    AC,
    AD,
    AE,
    AF,
    AG,
    AH,
    AI,
    BA,
    BB,
    BC,
    BD,
    BE,
    BF,
    CA,
    DA,
    DB,
    DC,
    AK,
    EA,
}

impl Category {
    // The category that a code names, if it names one.
    #[tactic(auto, using(crate::proofs::Categories::inverse))]
    pub fn read(code: &[u8]) -> Option<Category>
        ensures value { result ≡ category_in code.now }
        ensures law { Inverse code_of category_in }
    {
        let &[first, second] = code else {
            return None;
        };
        named(char::from(first), char::from(second))
    }

    // The place of its columns among those of all.
    pub fn column(self) -> usize
        ensures value { result ≡ column_of self }
        ensures small { result < 31 }
    {
        self as usize
    }
}

fn named(first: char, second: char) -> Option<Category>
    ensures { result ≡ category_of first second }
{
    match first {
        '0' => in_zero(second),
        'A' => in_a(second),
        'B' => in_b(second),
        'C' => in_c(second),
        'D' => in_d(second),
        'E' => in_e(second),
        _ => None,
    }
}

fn in_zero(second: char) -> Option<Category>
    ensures { result ≡ in_zero second }
{
    match second {
        '1' => Some(Category::C01),
        '2' => Some(Category::C02),
        '3' => Some(Category::C03),
        '4' => Some(Category::C04),
        '5' => Some(Category::C05),
        '6' => Some(Category::C06),
        '7' => Some(Category::C07),
        '8' => Some(Category::C08),
        '9' => Some(Category::C09),
        _ => None,
    }
}

fn in_a(second: char) -> Option<Category>
    ensures { result ≡ in_a second }
{
    match second {
        'A' => Some(Category::AA),
        'B' => Some(Category::AB),
        'C' => Some(Category::AC),
        'D' => Some(Category::AD),
        'E' => Some(Category::AE),
        'F' => Some(Category::AF),
        'G' => Some(Category::AG),
        'H' => Some(Category::AH),
        'I' => Some(Category::AI),
        'J' => Some(Category::AJ),
        'K' => Some(Category::AK),
        _ => None,
    }
}

fn in_b(second: char) -> Option<Category>
    ensures { result ≡ in_b second }
{
    match second {
        'A' => Some(Category::BA),
        'B' => Some(Category::BB),
        'C' => Some(Category::BC),
        'D' => Some(Category::BD),
        'E' => Some(Category::BE),
        'F' => Some(Category::BF),
        _ => None,
    }
}

fn in_c(second: char) -> Option<Category>
    ensures { result ≡ in_c second }
{
    match second {
        'A' => Some(Category::CA),
        _ => None,
    }
}

fn in_d(second: char) -> Option<Category>
    ensures { result ≡ in_d second }
{
    match second {
        'A' => Some(Category::DA),
        'B' => Some(Category::DB),
        'C' => Some(Category::DC),
        _ => None,
    }
}

fn in_e(second: char) -> Option<Category>
    ensures { result ≡ in_e second }
{
    match second {
        'A' => Some(Category::EA),
        _ => None,
    }
}
