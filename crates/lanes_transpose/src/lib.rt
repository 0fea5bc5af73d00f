// The transpose of a square matrix of bits, a word a row.
#![tactic(auto)]

ghost use Rattle.std.specs.Prelude.{◌≡◌, ◌<◌};
ghost use Rattle.katan.specs.Sizes.{word_bits};
ghost use Rattle.lanes_transpose.specs.Matrix.{transposed};
ghost use Rattle.lanes_transpose.specs.inner.Stage.{swapped_low, swapped_high, Passed};

use katan::WORD_BITS;

// The rows of a quarter, of half and of three quarters of the matrix.
const QUARTER: usize = WORD_BITS / 4;

const HALF: usize = 2 * QUARTER;

const THREE_QUARTERS: usize = HALF + QUARTER;

// A stage swaps the low row's bits under `mask << shift` with the high row's under `mask`.
#[derive(Clone, Copy)]
struct Stage {
    shift: usize,
    mask: u64,
    ghost within: { shift < word_bits },
}

impl Stage {
    fn new(shift: usize, mask: u64) -> Stage
        requires { shift < word_bits }
        ensures { (result.shift ≡ shift) × (result.mask ≡ mask) }
    {
        Stage { shift, mask }
    }

    // The low row and the high row, swapped.
    fn swapped(self, low: u64, high: u64) -> (u64, u64)
        ensures low_row { result.0 ≡ swapped_low self.shift self.mask low high }
        ensures high_row { result.1 ≡ swapped_high self.shift self.mask low high }
    {
        let difference = ((low >> self.shift) ^ high) & self.mask;
        (low ^ (difference << self.shift), high ^ difference)
    }
}

// Two stages. The first swaps rows i and i + HALF, which then stand side by side, and the second does the same with its result: so no
// stage looks for its pairs, and both are one straight loop that vectorises.
fn pass(rows: [u64; WORD_BITS], first: Stage, second: Stage) -> [u64; WORD_BITS]
    ensures { Passed 16 first.shift first.mask second.shift second.mask rows result }
{
    let mut next = [0u64; WORD_BITS];
    for i in 0..QUARTER {
        let (a, c) = first.swapped(rows[i], rows[i + HALF]);
        let (b, d) = first.swapped(rows[i + QUARTER], rows[i + THREE_QUARTERS]);
        let (a, b) = second.swapped(a, b);
        let (c, d) = second.swapped(c, d);
        next[4 * i] = a;
        next[4 * i + 1] = b;
        next[4 * i + 2] = c;
        next[4 * i + 3] = d;
    }
    next
}

// Bit i of row j of the result is bit j of row i.
pub fn transpose(rows: [u64; WORD_BITS]) -> [u64; WORD_BITS]
    ensures { result ≡ transposed rows }
{
    let rows = pass(
        rows,
        Stage::new(32, 0x00000000ffffffff),
        Stage::new(16, 0x0000ffff0000ffff),
    );
    let rows = pass(
        rows,
        Stage::new(8, 0x00ff00ff00ff00ff),
        Stage::new(4, 0x0f0f0f0f0f0f0f0f),
    );
    pass(
        rows,
        Stage::new(2, 0x3333333333333333),
        Stage::new(1, 0x5555555555555555),
    )
}
