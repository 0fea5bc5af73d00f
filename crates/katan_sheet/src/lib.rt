// A sheet: for a block and its key, the bits known as 1 and the bits known as 0. Its checks, and what two sheets know together. In specs/
// also what rounds make of bits of which some are unknown.
#![tactic(auto)]

ghost use Rattle.std.specs.Prelude.{◌≡◌, ◌||◌, ◌^◌, leb};
ghost use Rattle.katan.specs.Bit.{or};
ghost use Rattle.katan.specs.Checks.{outcome_by};
ghost use Rattle.katan.specs.Key.{key_number};
ghost use Rattle.katan_sheet.specs.Sheet.{joined};
ghost use Rattle.katan_sheet.specs.Answers.{key_in, key_known, sheet_known, key_parts_check, contradiction_check, join_answer};

use katan::{KEY_BYTES, Key, Refusal};
use std::ops::BitOr;

// Bits of which some are unknown: those known as 1, and those known as 0.
#[derive(Clone, Copy)]
pub struct Known<T> {
    pub ones: T,
    pub zeros: T,
}

// Those of a block, and those of a key.
pub type KnownBits = Known<u64>;

pub type KnownKey = Known<Key>;

// What is known of a block at position 0, and of its key: in bytes as given, or as a key.
#[derive(Clone, Copy)]
pub struct Sheet<K> {
    pub block: KnownBits,
    pub key: Known<K>,
}

// What either knows. Two impls, and none over any type: of words the law is on the words themselves, of keys on their numbers.
impl BitOr<KnownBits> for KnownBits {
    type Output = KnownBits;

    ghost can_bitor = { λ a b. Unit {0} };

    ghost bitor_gives = { λ a b r. r ≡ joined a b };

    fn bitor(self, other: KnownBits) -> KnownBits {
        Known {
            ones: self.ones | other.ones,
            zeros: self.zeros | other.zeros,
        }
    }
}

impl BitOr<KnownKey> for KnownKey {
    type Output = KnownKey;

    ghost can_bitor = { λ a b. Unit {0} };

    ghost bitor_gives = { λ a b r. key_known r ≡ joined (key_known a) (key_known b) };

    fn bitor(self, other: KnownKey) -> KnownKey {
        Known {
            ones: join_part(self.ones, other.ones),
            zeros: join_part(self.zeros, other.zeros),
        }
    }
}

fn join_part(a: Key, b: Key) -> Key
    ensures { key_number result ≡ or (key_number a) (key_number b) }
{
    Key {
        low: a.low | b.low,
        high: a.high | b.high,
    }
}

// Check 2 of a key's two parts.
pub fn bad_length(key: Known<&[u8]>) -> bool
    ensures { result ≡ (key_parts_check key.entry.ones.now key.entry.zeros.now).fault }
{
    key.ones.len() != KEY_BYTES || key.zeros.len() != KEY_BYTES
}

// Check 7 of a block's two numbers.
pub fn too_wide(n: usize, block: KnownBits) -> bool
    ensures { result ≡ leb (2 ^ n) block.ones || leb (2 ^ n) block.zeros }
{
    katan_numbers::too_wide(n, block.ones) || katan_numbers::too_wide(n, block.zeros)
}

// Check 16 of a block and a key: a bit is known both as 0 and as 1.
pub fn contradictory(block: KnownBits, key: KnownKey) -> bool
    ensures { result ≡ (contradiction_check (key_known key) block).fault }
{
    block.ones & block.zeros != 0
        || key.ones.low & key.zeros.low != 0
        || key.ones.high & key.zeros.high != 0
}

// A key from the first 10 bytes of each part.
pub fn key_of(key: Known<&[u8]>) -> KnownKey
    ensures { result ≡ key_in key.entry.ones.now key.entry.zeros.now }
{
    Known {
        ones: katan_numbers::key_of(key.ones),
        zeros: katan_numbers::key_of(key.zeros),
    }
}

// What either of two sheets of one block knows, of the block and of the key.
pub fn join(variant: u8, sheet: Sheet<&[u8]>, other: Sheet<&[u8]>) -> Result<Sheet<Key>, Refusal>
    ensures { outcome_by sheet_known result ≡ join_answer variant sheet.entry.block sheet.entry.key.ones.now sheet.entry.key.zeros.now other.entry.block other.entry.key.ones.now other.entry.key.zeros.now }
{
    let row = katan_variants::row_of(variant)?;
    if bad_length(sheet.key) || bad_length(other.key) {
        return Err(Refusal::BadLength);
    }
    if too_wide(row.n, sheet.block) || too_wide(row.n, other.block) {
        return Err(Refusal::BadBlock);
    }
    let block = sheet.block | other.block;
    let key = key_of(sheet.key) | key_of(other.key);
    if contradictory(block, key) {
        return Err(Refusal::Contradiction);
    }
    Ok(Sheet { block, key })
}
