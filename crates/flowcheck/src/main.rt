// The program: a file from standard input, and the check's answer on standard output, as one line.
#![tactic(auto)]

mod answer; // answer.rt: the check of the file, and its line
mod input; // input.rt: the file

ghost use Rattle.std.specs.Prelude.{◌+◌, ◌<◌, ◌≤◌, List, ℕ, length, take, drop};
ghost use Rattle.std.specs.Io.KnownBytes.{Appends};
ghost use Rattle.rules.specs.Context.{standard};
ghost use Rattle.layout.specs.Verdict.{verdict_of};
ghost use Rattle.line.specs.Line.{LineFor, line_of};
ghost use Rattle.flowcheck.specs.Passed.{ReadAll, WrittenOf};

use answer::answer;
use input::read_input;
use std::io::{Read, Write};

// Writes the line from a byte on, by one call, and answers how many bytes were taken: 0 if the write failed. Nothing else in the
// program writes. `file` is there for the contract: only the line of the check's answer for these bytes is written.
fn write_from<W: Write>(writer: &mut W, file: &[u8], line: &[u8], from: usize) -> usize
    requires line_for { LineFor file.now line.now }
    requires from_in_bounds { from < length line.now }
    ensures within { from + result ≤ length line.now }
    ensures written { Appends (W.contents writer.old) (W.contents writer.new) (take result (drop from line.now)) }
{
    match writer.write(&line[from..]) {
        Ok(taken) => taken,
        Err(_) => 0,
    }
}

// Writes the line, and goes on after a write that was cut short. If a write fails, the line lacks its end, byte 10: the exit status
// does not say so.
fn print_line<W: Write>(writer: &mut W, file: &[u8], line: &[u8])
    requires { LineFor file.now line.now }
    ensures { WrittenOf (W.contents writer.old) (W.contents writer.new) line.now }
{
    let mut from = 0;
    // stays a `while`: how far a turn goes is what the write took
    while from < line.len() {
        let taken = write_from(writer, file, line, from);
        if taken == 0 {
            return;
        }
        from += taken;
    }
}

// The program on any input and output. What it writes is the line of the check's answer for what it read, or a front part of that, and
// nothing else.
fn answer_input<R: Read, W: Write>(reader: &mut R, writer: &mut W)
    ensures { (file : List ℕ) × ReadAll (R.remaining reader.old) 32769 file
        × WrittenOf (W.contents writer.old) (W.contents writer.new) (line_of (verdict_of standard file)) }
{
    // One byte more than a file may have, so that a longer input is over the limit too.
    let mut buffer = [0u8; 32769];
    let n = read_input(reader, &mut buffer);
    let mut text = [0u8; 64];
    let end = answer(&buffer[..n], &mut text);
    print_line(writer, &buffer[..n], &text[..end]);
}

fn main(rt: HostRuntime) {
    answer_input(&mut rt.stdin(), &mut rt.stdout());
}
