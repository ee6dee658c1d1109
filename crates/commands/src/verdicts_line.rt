// What is printed of the verdicts of an upload.
ghost use Rattle.std.specs.Prelude.{◌≡◌, Some};
ghost use Rattle.commands.specs.VerdictsLines.{number_of, verdict_text, verdicts_text};

use faults::rules::Rule;
use std::fmt;

// A `V`, a blank, and for each record the number of the rule that its verdict names, in two capital hexadecimal digits, or 00.
#[derive(Clone, Copy)]
pub struct VerdictsLine<'a>(pub &'a [Option<Rule>]);

impl fmt::Display for VerdictsLine<'_> {
    ghost output = { λ line. Some (verdicts_text line.0.now) };

    fn fmt<W: fmt::Write>(&self, f: &mut fmt::Formatter<W>) -> fmt::Result {
        write!(f, "V ")?;
        for verdict in self.0 {
            write!(f, "{}", VerdictText(*verdict))?;
        }
        writeln!(f, "")
    }
}

#[derive(Clone, Copy)]
struct VerdictText(Option<Rule>);

impl fmt::Display for VerdictText {
    ghost output = { λ v. Some (verdict_text v.0) };

    fn fmt<W: fmt::Write>(&self, f: &mut fmt::Formatter<W>) -> fmt::Result {
        let number = number_of(self.0);
        write!(f, "{number:02X}")
    }
}

fn number_of(verdict: Option<Rule>) -> u8
    ensures { result ≡ number_of verdict }
{
    verdict.map_or(0, Rule::number)
}
