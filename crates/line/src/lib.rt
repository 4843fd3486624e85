// The line of a verdict: `accepted `, the count; or `refused `, number, space, place.
#![tactic(auto)]

ghost use Rattle.std.specs.Prelude.{◌++◌, ◌+◌, length};
ghost use Rattle.rules.specs.Judge.{accepted, refused};
ghost use Rattle.line.specs.Line.{decimal, Written};
ghost use Rattle.line.specs.Putting.{Room, TextPut};

// Puts bytes at a place, and answers the place past them.
fn put(out: &mut [u8], at: usize, text: &[u8]) -> usize
    requires { Room out.old «at» (length text.now) }
    ensures { TextPut out.old «at» text.now out.new result }
{
    let end = at + text.len();
    out[at..end].copy_from_slice(text);
    end
}

// Puts a number in decimal.
fn put_decimal(out: &mut [u8], at: usize, n: u64) -> usize
    requires { Room out.old «at» 20 }
    ensures { TextPut out.old «at» (decimal n) out.new result }
{
    let mut digits = [0u8; 20];
    let k = io::decimal(n, &mut digits);
    put(out, at, &digits[..k])
}

// Puts a number in decimal, and bytes behind it.
fn put_number(out: &mut [u8], at: usize, n: u64, end: &[u8]) -> usize
    requires { Room out.old «at» (20 + length end.now) }
    ensures { TextPut out.old «at» (decimal n ++ end.now) out.new result }
{
    let next = put_decimal(out, at, n);
    put(out, next, end)
}

// Puts the line of an accepted file in front, and answers how many bytes it has.
pub fn accepted_line(count: u64, out: &mut [u8]) -> usize
    requires { Room out.old 0 64 }
    ensures { Written (accepted count) out.new result }
{
    let next = put(out, 0, b"accepted ");
    put_number(out, next, count, b"\n")
}

// The line of a refused file, alike.
pub fn refused_line(number: u64, place: u64, out: &mut [u8]) -> usize
    requires { Room out.old 0 64 }
    ensures { Written (refused number place) out.new result }
{
    let next = put(out, 0, b"refused ");
    let last = put_number(out, next, number, b" ");
    put_number(out, last, place, b"\n")
}
