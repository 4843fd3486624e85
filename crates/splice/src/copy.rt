ghost use Rattle.std.specs.Prelude.{◌≡◌, ◌+◌, ◌≤◌, length};
ghost use Rattle.splice.specs.Splice.{spliced};

// Copies bytes into others, from a place on.
pub fn copy(from: &[u8], to: &mut [u8], at: usize)
    requires { «at» + length from.now ≤ length to.old }
    ensures { to.new ≡ spliced to.old «at» from.now }
{
    // not by `copy_from_slice`, which may call `memmove`: the library for C asks for no such function
    for (i, byte) in from.iter().enumerate() {
        to[at + i] = *byte;
    }
}
