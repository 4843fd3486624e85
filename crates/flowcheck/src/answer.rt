// The check of a file under document 01's limits, and its line.
ghost use Rattle.rules.specs.Context.{standard};
ghost use Rattle.layout.specs.Verdict.{verdict_of};
ghost use Rattle.line.specs.Line.{Written};
ghost use Rattle.line.specs.Putting.{Room};

use context::settings::standard_settings;
use line::{accepted_line, refused_line};

// Puts the line of the check's answer in front, and answers how many bytes it has.
pub fn answer(file: &[u8], out: &mut [u8]) -> usize
    requires { Room out.old 0 64 }
    ensures { Written (verdict_of standard file.now) out.new result }
{
    match flow::check(file, standard_settings()) {
        Ok(count) => accepted_line(count as u64, out),
        Err(refusal) => refused_line(refusal.number as u64, refusal.place as u64, out),
    }
}
