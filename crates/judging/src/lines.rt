// The lines that judge prints, in capital hexadecimal digits.
ghost use Rattle.std.specs.Prelude.{Some};
ghost use Rattle.judging.specs.Lines.{line_text, row_text};

use crate::upload::Counts;
use faults::report::Fault;
use grammar::states::FieldId;
use reader::faults::Refusal;
use std::fmt;

// What judge prints of an answer. A type of its own, since a `Result` can be given no `Display` here.
// Of an upload that is taken: the last two bytes of the number of its records, those of the accepted ones, and the last four of
// the number of its faults.
// Of one that goes back whole: number and cause in a byte each and the last four bytes of the place, 0 where there is none.
#[derive(Clone, Copy)]
pub struct Line(pub Result<Counts, Refusal>);

impl fmt::Display for Line {
    ghost output = { λ line. Some (line_text line.0) };

    fn fmt<W: fmt::Write>(&self, f: &mut fmt::Formatter<W>) -> fmt::Result {
        match self.0 {
            Ok(counts) => {
                let records = counts.records % 0x1_0000;
                let accepted = counts.accepted % 0x1_0000;
                let faults = counts.faults % 0x1_0000_0000;
                writeln!(f, "{records:04X}{accepted:04X}{faults:08X}")
            }
            Err(refusal) => {
                let number = refusal.number();
                let cause = refusal.cause().map_or(0, u8::from);
                let place = refusal.place().unwrap_or(0);
                writeln!(f, "{number:02X}{cause:02X}{:08X}", place % 0x1_0000_0000)
            }
        }
    }
}

// What it prints of a fault.
#[derive(Clone, Copy)]
pub struct Row(pub Fault);

impl fmt::Display for Row {
    ghost output = { λ row. Some (row_text row.0) };

    fn fmt<W: fmt::Write>(&self, f: &mut fmt::Formatter<W>) -> fmt::Result {
        let Fault {
            record,
            segment,
            field: FieldId { letter, tens, ones },
            rule,
            place,
        } = self.0;
        let record = record % 0x1_0000;
        let segment = segment % 0x1_0000;
        let rule = rule.number();
        let place = place % 0x1_0000_0000;
        writeln!(
            f,
            "{record:04X}{segment:04X}{letter:02X}{tens:02X}{ones:02X}{rule:02X}{place:08X}"
        )
    }
}
