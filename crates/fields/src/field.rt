// The fields of a record.
ghost use Rattle.fields.specs.Fields.{row, id_of, segment_of, fields_of, letter_of, first_of, numbered, number_in, field_at, Naming, Standing};
ghost use Rattle.calendar.specs.Digits.{digit_in};
ghost use Rattle.std.specs.Prelude.{◌≡◌, ◌<◌, ◌==◌};

use grammar::states::{FieldId, Segment};

// Those of MSH, of MB1 and of an order MB2.
#[derive(Clone, Copy, Debug)]
pub enum Field {
    H00,
    H01,
    M01,
    M02,
    M03,
    M04,
    M05,
    M06,
    M07,
    M08,
    M09,
    M10,
    M11,
    M12,
    M13,
    M14,
    M15,
    M16,
    M17,
    M18,
    M19,
    M20,
    M21,
    M22,
    M23,
    M24,
    M25,
    M26,
    M27,
    M28,
    M29,
    M30,
    M31,
    M32,
    M33,
    M34,
    M35,
    M36,
    M37,
    M38,
    M39,
    M40,
    M41,
    M42,
    M43,
    M44,
    M45,
    M46,
    M47,
    M48,
    M49,
    M50,
    M51,
    M52,
    D01,
    D02,
    D03,
    D04,
    D05,
    D06,
    D07,
    D08,
    D09,
    D10,
    D11,
    D12,
    D13,
    D14,
    D15,
}

const NAMES: [[u8; 3]; 69] = [
    *b"H00", *b"H01", *b"M01", *b"M02", *b"M03", *b"M04", *b"M05", *b"M06", *b"M07", *b"M08",
    *b"M09", *b"M10", *b"M11", *b"M12", *b"M13", *b"M14", *b"M15", *b"M16", *b"M17", *b"M18",
    *b"M19", *b"M20", *b"M21", *b"M22", *b"M23", *b"M24", *b"M25", *b"M26", *b"M27", *b"M28",
    *b"M29", *b"M30", *b"M31", *b"M32", *b"M33", *b"M34", *b"M35", *b"M36", *b"M37", *b"M38",
    *b"M39", *b"M40", *b"M41", *b"M42", *b"M43", *b"M44", *b"M45", *b"M46", *b"M47", *b"M48",
    *b"M49", *b"M50", *b"M51", *b"M52", *b"D01", *b"D02", *b"D03", *b"D04", *b"D05", *b"D06",
    *b"D07", *b"D08", *b"D09", *b"D10", *b"D11", *b"D12", *b"D13", *b"D14", *b"D15",
];

static HEADER: [Field; 2] = [Field::H00, Field::H01];

static VISIT: [Field; 52] = [
    Field::M01,
    Field::M02,
    Field::M03,
    Field::M04,
    Field::M05,
    Field::M06,
    Field::M07,
    Field::M08,
    Field::M09,
    Field::M10,
    Field::M11,
    Field::M12,
    Field::M13,
    Field::M14,
    Field::M15,
    Field::M16,
    Field::M17,
    Field::M18,
    Field::M19,
    Field::M20,
    Field::M21,
    Field::M22,
    Field::M23,
    Field::M24,
    Field::M25,
    Field::M26,
    Field::M27,
    Field::M28,
    Field::M29,
    Field::M30,
    Field::M31,
    Field::M32,
    Field::M33,
    Field::M34,
    Field::M35,
    Field::M36,
    Field::M37,
    Field::M38,
    Field::M39,
    Field::M40,
    Field::M41,
    Field::M42,
    Field::M43,
    Field::M44,
    Field::M45,
    Field::M46,
    Field::M47,
    Field::M48,
    Field::M49,
    Field::M50,
    Field::M51,
    Field::M52,
];

static ORDER: [Field; 15] = [
    Field::D01,
    Field::D02,
    Field::D03,
    Field::D04,
    Field::D05,
    Field::D06,
    Field::D07,
    Field::D08,
    Field::D09,
    Field::D10,
    Field::D11,
    Field::D12,
    Field::D13,
    Field::D14,
    Field::D15,
];

impl Field {
    // Its place among all.
    pub fn row(self) -> usize
        ensures value { result ≡ row self }
        ensures small { result < 69 }
    {
        self as usize
    }

    pub fn id(self) -> FieldId
        ensures { result ≡ id_of self }
    {
        let [letter, tens, ones] = NAMES[self.row()];
        FieldId { letter, tens, ones }
    }

    pub fn segment(self) -> Segment
        ensures { result ≡ segment_of self }
    {
        match self.row() {
            0..=1 => Segment::Header,
            2..=53 => Segment::Visit,
            _ => Segment::Order,
        }
    }
}

// The fields of a segment, in their order.
pub fn fields_of(segment: Segment) -> &'static [Field]
    ensures { result.now ≡ fields_of segment }
{
    match segment {
        Segment::Header => &HEADER,
        Segment::Visit => &VISIT,
        Segment::Order => &ORDER,
    }
}

fn digit(b: u8) -> Option<usize>
    ensures { result ≡ digit_in b }
{
    match b {
        b'0'..=b'9' => Some(usize::from(b - b'0')),
        _ => None,
    }
}

fn number(id: FieldId) -> Option<usize>
    ensures { result ≡ number_in id }
{
    Some(digit(id.tens)? * 10 + digit(id.ones)?)
}

fn first_of(segment: Segment) -> usize
    ensures { result ≡ first_of segment }
{
    match segment {
        Segment::Header => 0,
        Segment::Visit | Segment::Order => 1,
    }
}

// The field of a segment with this number.
#[tactic(auto, using(std::proofs::lemmas::Option::gets))]
fn numbered(segment: Segment, number: usize) -> Option<Field>
    ensures { result ≡ numbered segment number }
{
    let place = number.checked_sub(first_of(segment))?;
    fields_of(segment).get(place).copied()
}

fn is_letter_of(segment: Segment, letter: u8) -> bool
    ensures { result ≡ (letter == letter_of segment) }
{
    match char::from(letter) {
        'H' => segment == Segment::Header,
        'M' => segment == Segment::Visit,
        'D' => segment == Segment::Order,
        _ => false,
    }
}

// The field with this ID, if it stands in the segment.
pub fn field_at(segment: Segment, id: FieldId) -> Option<Field>
    ensures value { result ≡ field_at segment id }
{
    if !is_letter_of(segment, id.letter) {
        return None;
    }
    numbered(segment, number(id)?)
}

// A field is what its ID names where it stands, and an ID names nothing else; fields stand in one segment each, by their rows.
pub fn fields_stand()
    ensures naming { Naming }
    ensures standing { Standing }
{}
