// The file on standard input.
ghost use Rattle.std.specs.Prelude.{length, take};
ghost use Rattle.io.specs.Counts.{IsPrefixLen};
ghost use Rattle.flowcheck.specs.Passed.{ReadAll};

use std::io::Read;

// Reads until the input ends or the buffer is full, and answers how many bytes came. If a read fails, the answer is 0: input that
// cannot be read to its end is no file, and is not judged as if it ended there.
pub fn read_input<R: Read>(reader: &mut R, buffer: &mut [u8]) -> usize
    ensures within { IsPrefixLen result buffer.new }
    ensures all { ReadAll (R.remaining reader.old) (length buffer.old) (take result buffer.new) }
{
    let mut n = 0;
    // stays a `while`: how far a turn goes is what the read gave
    while n < buffer.len() {
        let more = match reader.read(&mut buffer[n..]) {
            Ok(more) => more,
            Err(_) => return 0,
        };
        if more == 0 {
            return n;
        }
        n += more;
    }
    n
}
