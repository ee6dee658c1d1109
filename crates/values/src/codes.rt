// Which list a code must stand in.
ghost use Rattle.std.specs.Prelude.{◌≡◌};
ghost use Rattle.values.specs.Codes.{list_of, is_excused_bed};

use fields::action::Action;
use fields::field::Field;

pub fn list_of(action: Option<Action>, field: Field) -> Option<u8>
    ensures { result ≡ list_of action field }
{
    match field {
        Field::M05 | Field::D12 => Some(1),
        Field::M06 => Some(2),
        Field::D06 => Some(3),
        Field::M35 | Field::M36 | Field::M37 | Field::M38 | Field::M39 | Field::M40 => Some(4),
        Field::M41 | Field::M42 | Field::M43 => Some(5),
        Field::M50 => Some(6),
        Field::M13 if matches!(action, Some(Action::Exceptional)) => Some(7),
        _ => None,
    }
}

pub fn is_excused_bed(field: Field, value: &[u8]) -> bool
    ensures { result ≡ is_excused_bed field value.now }
{
    match field {
        Field::M50 => value == b"RRRRR".as_slice()
            || value == b"DW".as_slice()
            || value == b"ER".as_slice(),
        _ => false,
    }
}
