// The values of an array in a store.
ghost use Rattle.std.specs.Prelude.{◌≡◌, ◌<◌, length};
ghost use Rattle.execution.specs.Lent.{element_at, elements};

// The 64 values of an array.
pub fn fetch(values: &[i64], array: usize, scratch: &mut [i64])
    requires { (array < 32) × (length values.now ≡ 2048) × (length scratch.old ≡ 64) }
    ensures { scratch.new ≡ elements (element_at values.now array) }
{
    // not by `copy_from_slice`, which may call `memmove`: the library for C asks for no such function
    for n in 0..64 {
        scratch[n] = values[64 * array + n];
    }
}
