// What single values of an order may be.
ghost use Rattle.std.specs.Prelude.{◌≡◌};
ghost use Rattle.values.specs.Orders.{is_order_kind, is_prescription_kind, is_course};

use crate::numbers::number;

pub fn is_order_kind(value: &[u8]) -> bool
    ensures { result ≡ is_order_kind value.now }
{
    match *value {
        [kind] => b"12345JGMPQ".contains(&kind),
        _ => false,
    }
}

pub fn is_prescription_kind(value: &[u8]) -> bool
    ensures { result ≡ is_prescription_kind value.now }
{
    matches!(*value, [b'A'..=b'F'])
}

// Whether it is a number of days for which a medicine may be given.
pub fn is_course(value: &[u8]) -> bool
    ensures { result ≡ is_course value.now }
{
    (1..=92).contains(&number(value))
}
