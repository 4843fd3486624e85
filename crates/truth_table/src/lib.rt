// Formulas over at most 16 leaves, tried at 64 assignments in a word and four words a pass (document 01, "Implies").
#![tactic(auto)]

ghost use Rattle.std.specs.Prelude.{◌≡◌, ◌%◌, ◌≤◌, IsTrue, ◌↔◌};
ghost use Rattle.truth_table.specs.Formula.{IsFormula, CanWork, FourBlocks, Full, GivesFour, Every, spread_of};

// The bytes of a formula above those of its leaves. They stay bytes: those below AND are places among the words of `fill`, and an
// enum with a leaf's number would take two bytes, where the memory for a formula is fixed (32,776 bytes lent by `implication`).
pub const FALSE: u8 = 16;

pub const TRUE: u8 = 17;

pub const AND: u8 = 18;

pub const OR: u8 = 19;

pub const NOT: u8 = 20;

// 64 times the low bit of x.
fn spread(x: usize) -> u64
    ensures { result ≡ spread_of (x % 2) }
{
    if x % 2 == 0 { 0 } else { 18446744073709551615 }
}

// The words of the leaves in four blocks of 64 assignments from block b on, then those of false and true: a row for each
// leaf, a lane for each block.
fn fill(b: usize) -> [[u64; 4]; 18]
    requires { b ≤ 1024 }
    ensures { FourBlocks b result }
{
    let mut t: [[u64; 4]; 18] = [
        [12297829382473034410; 4],
        [14757395258967641292; 4],
        [17361641481138401520; 4],
        [18374966859414961920; 4],
        [18446462603027742720; 4],
        [18446744069414584320; 4],
        [0; 4],
        [0; 4],
        [0; 4],
        [0; 4],
        [0; 4],
        [0; 4],
        [0; 4],
        [0; 4],
        [0; 4],
        [0; 4],
        [0; 4],
        [18446744073709551615; 4],
    ];
    let mut rest = [b, b + 1, b + 2, b + 3];
    for i in 6..16 {
        t[i] = [
            spread(rest[0]),
            spread(rest[1]),
            spread(rest[2]),
            spread(rest[3]),
        ];
        rest = [rest[0] / 2, rest[1] / 2, rest[2] / 2, rest[3] / 2];
    }
    t
}

// Whether each of the four words is all ones.
fn full(x: [u64; 4]) -> bool
    ensures { Full x result }
{
    x.iter().all(|word| *word == 18446744073709551615)
}

// The words that the formula of the first len bytes gives in four blocks at once, from its last byte to its first.
fn block(prog: &[u8], len: usize, leaves: &[[u64; 4]; 18], stack: &mut [[u64; 4]]) -> [u64; 4]
    requires { CanWork prog.now len stack.old }
    ensures { GivesFour prog.now len leaves.now result }
{
    let mut top: usize = 0;
    let mut word = [0u64; 4];
    for i in (0..len).rev() {
        let op = prog[i];
        if op < AND {
            stack[top] = word;
            top += 1;
            word = leaves[op as usize];
        } else if op == NOT {
            word = [!word[0], !word[1], !word[2], !word[3]];
        } else {
            top -= 1;
            let below = stack[top];
            word = if op == AND {
                [
                    word[0] & below[0],
                    word[1] & below[1],
                    word[2] & below[2],
                    word[3] & below[3],
                ]
            } else {
                [
                    word[0] | below[0],
                    word[1] | below[1],
                    word[2] | below[2],
                    word[3] | below[3],
                ]
            };
        }
    }
    word
}

// The same as `every`, for a formula for which a stack of so many words has room.
fn every_within<const ROOM: usize>(prog: &[u8], len: usize, blocks: usize) -> bool
    requires { IsFormula prog.now len ROOM × (ROOM ≤ 260) × (blocks ≤ 1024) }
    ensures { Every prog.now len blocks result }
{
    let mut stack = [[0u64; 4]; ROOM];
    for b in (0..blocks).step_by(4) {
        if !full(block(prog, len, &fill(b), &mut stack)) {
            return false;
        }
    }
    true
}

// Whether every assignment of the first blocks makes the formula of the first len bytes true.
pub fn every(prog: &[u8], len: usize, blocks: usize) -> bool
    requires { IsFormula prog.now len 260 × (blocks ≤ 1024) }
    ensures { Every prog.now len blocks result }
{
    // Most formulas are short, and few words are to be cleared for them.
    if len <= 32 {
        every_within::<32>(prog, len, blocks)
    } else {
        every_within::<260>(prog, len, blocks)
    }
}
