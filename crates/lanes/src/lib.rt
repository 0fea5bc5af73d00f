// Many blocks at once, each with its own key. The work is bit-sliced: bit j of each word belongs to lane j, which holds block j.
#![tactic(auto)]

ghost use Rattle.std.specs.Prelude.{◌≡◌, ℕ, ◌*◌, ◌^◌, ◌<◌, ◌≤◌, leb, get_or, length};
ghost use Rattle.std.specs.List.{fold};
ghost use Rattle.katan.specs.Bit.{or};
ghost use Rattle.katan.specs.Checks.{outcome};
ghost use Rattle.katan.specs.Variant.{row_of, width_of};
ghost use Rattle.katan.specs.Sizes.{word_bits, key_bytes};
ghost use Rattle.katan.specs.inner.Within.{Entries};
ghost use Rattle.lanes_rounds.specs.Words.{lane_block};
ghost use Rattle.lanes.specs.Many.{block_key, one_block, any, many_answer, many_of};
ghost use Rattle.lanes.specs.inner.Words.{HighLanes, all_rounds};

use crate::keys::{HIGH_PLACE, Keys};
use katan::{KEY_BYTES, LANES, ROUND_KEYS, Refusal, WORD_BITS};

mod keys;

#[derive(Clone, Copy)]
pub enum Direction {
    Encrypt,
    Decrypt,
}

// All blocks in one word.
fn in_one_word(blocks: &[u64]) -> u64
    ensures { result ≡ fold or 0 blocks.now }
{
    blocks.iter().fold(0, |all, block| all | *block)
}

// Check 7: some block is 2^n or more. All of them in one word are, if one is.
fn any_wide(n: usize, blocks: &[u64]) -> bool
    ensures { result ≡ any (leb (2 ^ n)) blocks.now }
{
    katan_numbers::too_wide(n, in_one_word(blocks))
}

// The blocks as the rows of a matrix. Where they are fewer than the rows, the other rows are zeros.
fn rows_of(blocks: &[u64]) -> [u64; WORD_BITS]
    requires { length blocks.now ≤ word_bits }
    ensures { Entries (λ i. get_or blocks.now i 0) (length blocks.now) result }
{
    let mut rows = [0u64; WORD_BITS];
    rows[..blocks.len()].copy_from_slice(blocks);
    rows
}

// What a call is told of its blocks, which have n bits, and their keys.
#[derive(Clone, Copy)]
struct Call<'a> {
    direction: Direction,
    variant: u8,
    n: usize,
    keys: Keys<'a>,
    ghost width: { n ≡ width_of variant },
}

impl Call<'_> {
    // All rounds on the words, either way.
    fn all_rounds(
        &self,
        round_keys: &[u64; ROUND_KEYS],
        words: &[u64; WORD_BITS],
    ) -> [u64; WORD_BITS]
        ensures { result ≡ all_rounds self.now.direction self.now.n round_keys.now words.now }
    {
        // Direction is public, and many_of speaks of it: it is matched here alone, and the step itself is a type parameter.
        match self.direction {
            Direction::Encrypt => lanes_rounds::encrypted(self.n, round_keys, words),
            Direction::Decrypt => lanes_rounds::decrypted(self.n, round_keys, words),
        }
    }

    // From the words of the blocks to the results as rows. `high` has bits 64 to 79 of the keys in its words 48 to 63.
    fn rows_from_words(&self, words: &[u64; WORD_BITS], high: &[u64; WORD_BITS]) -> [u64; WORD_BITS]
        requires { HighLanes (block_key self.now.keys.bytes.now) self.now.keys.count high.now }
        ensures { Entries (λ j. one_block self.now.direction self.now.variant (block_key self.now.keys.bytes.now j) (lane_block (row_of self.now.variant) words.now j)) self.now.keys.count result }
    {
        let round_keys = lanes_keys::round_words(self.variant, self.keys.key_words(high));
        lanes_transpose::transpose(self.all_rounds(&round_keys, words))
    }

    // The results, as rows.
    fn result_rows(&self, blocks: &[u64]) -> [u64; WORD_BITS]
        requires same_count { length blocks.now ≡ self.now.keys.count }
        requires by_index { (i : ℕ) → i < self.now.keys.count → get_or blocks.now i 0 < 2 ^ self.now.n }
        ensures { Entries (λ i. one_block self.now.direction self.now.variant (block_key self.now.keys.bytes.now i) (get_or blocks.now i 0)) self.now.keys.count result }
    {
        if self.n <= HIGH_PLACE {
            let words = lanes_transpose::transpose(self.keys.with_high(blocks));
            self.rows_from_words(&words, &words)
        } else {
            let words = lanes_transpose::transpose(rows_of(blocks));
            let zeros = [0u64; WORD_BITS];
            let high = lanes_transpose::transpose(self.keys.with_high(&zeros));
            self.rows_from_words(&words, &high)
        }
    }
}

// Encrypts or decrypts 1 to 64 blocks of one variant, block i with the key in bytes 10i to 10i + 9.
pub fn many(
    direction: Direction,
    variant: u8,
    keys: &[u8],
    blocks: &[u64],
    out: &mut [u64],
) -> Result<(), Refusal>
    ensures result_value { outcome result ≡ many_answer variant keys.now blocks.now out.old }
    ensures out_after { out.new ≡ many_of direction variant keys.now blocks.now out.old }
{
    let row = katan_variants::row_of(variant)?;
    let n = blocks.len();
    if n == 0 || LANES < n || keys.len() != KEY_BYTES * n || out.len() != n {
        return Err(Refusal::BadLength);
    }
    if any_wide(row.n, blocks) {
        return Err(Refusal::BadBlock);
    }
    let call = Call {
        direction,
        variant,
        n: row.n,
        keys: Keys {
            bytes: keys,
            count: n,
        },
    };
    let rows = call.result_rows(blocks);
    out.copy_from_slice(&rows[..n]);
    Ok(())
}
