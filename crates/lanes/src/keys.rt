// The key words: bit j of key word i is bit i of lane j's key.
ghost use Rattle.std.specs.Prelude.{◌≡◌, ℕ, ◌*◌, ◌%◌, ◌^◌, ◌<◌, ◌≤◌, get_or, length};
ghost use Rattle.katan.specs.Key.{key_length, key_number};
ghost use Rattle.katan.specs.Sizes.{word_bits, key_bytes};
ghost use Rattle.katan.specs.inner.Within.{Entries};
ghost use Rattle.lanes.specs.Many.{block_key};
ghost use Rattle.lanes.specs.inner.Words.{high_place, with_high, key_word, HighLanes, KeyLanes};

use katan::{KEY_BITS, KEY_BYTES, Key, WORD_BITS};

// The bits of a key past its low word; their place in a row, the highest; and the number whose multiples have bits only there.
const HIGH_BITS: usize = KEY_BITS - WORD_BITS;

pub const HIGH_PLACE: usize = WORD_BITS - HIGH_BITS;

const HIGH_UNIT: u64 = 1 << HIGH_PLACE;

// The keys of a call, ten bytes each.
#[derive(Clone, Copy)]
pub struct Keys<'a> {
    pub bytes: &'a [u8],
    pub count: usize,
    ghost few: { count ≤ word_bits },
    ghost enough: { key_bytes * count ≤ length bytes.now },
}

impl Keys<'_> {
    // The key of block i.
    fn block_key(&self, i: usize) -> Key
        requires { i < self.now.count }
        ensures { key_number result ≡ block_key self.now.bytes.now i }
    {
        let at = KEY_BYTES * i;
        let end = at + KEY_BYTES;
        katan_numbers::key_of(&self.bytes[at..end])
    }

    // Bits 0 to 63 of each key.
    fn low_rows(&self) -> [u64; WORD_BITS]
        ensures { Entries (λ i. block_key self.now.bytes.now i % 2 ^ word_bits) self.now.count result }
    {
        let mut rows = [0u64; WORD_BITS];
        for (i, row) in rows[..self.count].iter_mut().enumerate() {
            *row = self.block_key(i).low;
        }
        rows
    }

    // The blocks as rows, with bits 64 to 79 of each key in bits 48 to 63: so those need no matrix of their own beside blocks of up to 48 bits.
    pub fn with_high(&self, blocks: &[u64]) -> [u64; WORD_BITS]
        requires { (self.now.count ≤ length blocks.now) × ((i : ℕ) → i < self.now.count → get_or blocks.now i 0 < 2 ^ high_place) }
        ensures { Entries (λ i. with_high (block_key self.now.bytes.now i) (get_or blocks.now i 0)) self.now.count result }
    {
        let mut rows = [0u64; WORD_BITS];
        for (i, row) in rows[..self.count].iter_mut().enumerate() {
            *row = u64::from(self.block_key(i).high) * HIGH_UNIT + blocks[i];
        }
        rows
    }

    // `high` has bits 64 to 79 of the keys in its words 48 to 63.
    pub fn key_words(&self, high: &[u64; WORD_BITS]) -> [u64; KEY_BITS]
        requires { HighLanes (block_key self.now.bytes.now) self.now.count high.now }
        ensures { KeyLanes (block_key self.now.bytes.now) self.now.count result }
    {
        let low = lanes_transpose::transpose(self.low_rows());
        joined(&low, high)
    }
}

// The words of the whole keys.
fn joined(low: &[u64; WORD_BITS], high: &[u64; WORD_BITS]) -> [u64; KEY_BITS]
    ensures { Entries (key_word low.now high.now) key_length result }
{
    let mut words = [0u64; KEY_BITS];
    words[..WORD_BITS].copy_from_slice(low);
    words[WORD_BITS..].copy_from_slice(&high[HIGH_PLACE..]);
    words
}
