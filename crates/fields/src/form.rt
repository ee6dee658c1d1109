// How the value of each field is written.
ghost use Rattle.calendar.specs.Digits.{all_digits};
ghost use Rattle.fields.specs.Forms.{form_of, is_number, is_amount, is_quantity, fits};
ghost use Rattle.fields.specs.Writing.{Writing, Samples};
ghost use Rattle.std.specs.Prelude.{◌≡◌};

use crate::field::Field;
use calendar::day::Day;
use calendar::moment::Moment;
use grammar::bytes::is_digit;

#[derive(Clone, Copy, PartialEq, Eq, Debug)]
pub enum Form {
    // bytes of any kind, this many at the most
    Text(usize),
    // digits, this many at the most
    Digits(usize),
    // a real date
    Day,
    // a real date and time of day
    Moment,
    // digits, perhaps behind a minus, this many bytes at the most
    Amount(usize),
    // one to five digits, perhaps before a point and one more digit
    Quantity,
}

// In the order of the fields.
static FORMS: [Form; 69] = [
    Form::Text(1),
    Form::Text(1),
    Form::Text(12),
    Form::Text(12),
    Form::Text(10),
    Form::Day,
    Form::Text(10),
    Form::Text(10),
    Form::Text(2),
    Form::Day,
    Form::Digits(1),
    Form::Text(1),
    Form::Moment,
    Form::Text(1),
    Form::Text(4),
    Form::Text(256),
    Form::Text(20),
    Form::Text(20),
    Form::Text(10),
    Form::Text(4),
    Form::Moment,
    Form::Digits(2),
    Form::Digits(2),
    Form::Digits(2),
    Form::Text(1),
    Form::Digits(1),
    Form::Digits(1),
    Form::Digits(1),
    Form::Digits(1),
    Form::Digits(1),
    Form::Digits(1),
    Form::Digits(1),
    Form::Digits(1),
    Form::Digits(1),
    Form::Digits(4),
    Form::Digits(4),
    Form::Text(9),
    Form::Text(9),
    Form::Text(9),
    Form::Text(9),
    Form::Text(9),
    Form::Text(9),
    Form::Text(9),
    Form::Text(9),
    Form::Text(9),
    Form::Amount(8),
    Form::Amount(8),
    Form::Amount(8),
    Form::Amount(7),
    Form::Amount(7),
    Form::Moment,
    Form::Text(10),
    Form::Text(2),
    Form::Text(20),
    Form::Moment,
    Form::Text(1),
    Form::Digits(3),
    Form::Text(1),
    Form::Text(1),
    Form::Text(12),
    Form::Text(6),
    Form::Text(18),
    Form::Digits(2),
    Form::Quantity,
    Form::Text(40),
    Form::Text(10),
    Form::Text(20),
    Form::Text(4),
    Form::Text(100),
];

pub fn form_of(field: Field) -> Form
    ensures { result ≡ form_of field }
{
    FORMS[field.row()]
}

fn are_digits(value: &[u8]) -> bool
    ensures { result ≡ all_digits value.now }
{
    value.iter().all(|b| is_digit(*b))
}

fn is_number(most: usize, value: &[u8]) -> bool
    ensures { result ≡ is_number most value.now }
{
    (1..=most).contains(&value.len()) && are_digits(value)
}

fn is_amount(most: usize, value: &[u8]) -> bool
    ensures { result ≡ is_amount most value.now }
{
    match value {
        [b'-', digits @ ..] => is_number(most.saturating_sub(1), digits),
        _ => is_number(most, value),
    }
}

fn is_quantity(value: &[u8]) -> bool
    ensures { result ≡ is_quantity value.now }
{
    match value {
        [whole @ .., b'.', tenth] => is_number(5, whole) && is_digit(*tenth),
        _ => is_number(5, value),
    }
}

impl Form {
    // Whether the value is written so. An empty one never is.
    #[tactic(auto, using(crate::proofs::Writing::writing))]
    pub fn fits(self, value: &[u8]) -> bool
        ensures value { result ≡ fits self value.now }
        ensures law { Writing }
        ensures samples { Samples }
    {
        match self {
            Form::Text(most) => (1..=most).contains(&value.len()),
            Form::Digits(most) => is_number(most, value),
            Form::Day => Day::read(value).is_some(),
            Form::Moment => Moment::read(value).is_some(),
            Form::Amount(most) => is_amount(most, value),
            Form::Quantity => is_quantity(value),
        }
    }
}
