// Numbers and keys in bytes, low byte first; words copied; bits of words; whether a number fits n bits; a block and its two registers.
#![tactic(auto)]

ghost use Rattle.std.specs.Prelude.{◌≡◌, ◌%◌, ◌^◌, ◌<◌, eqb, length, take, nat_le, slice_index};
ghost use Rattle.katan.specs.Bit.{bit, pick, number_in, bytes_of};
ghost use Rattle.katan.specs.Clock.{block, registers};
ghost use Rattle.katan.specs.Key.{key_number, key_of};
ghost use Rattle.katan.specs.Lent.{fitted};
ghost use Rattle.katan.specs.Sizes.{key_bytes};

use katan::{Key, Registers, Row};

// The byte at a place, 0 past the end.
pub fn byte_at(bytes: &[u8], i: usize) -> u8
    ensures { result ≡ slice_index bytes.now i }
{
    bytes.get(i).copied().unwrap_or(0)
}

// The same as a word.
fn wide_at(bytes: &[u8], i: usize) -> u64
    ensures { (result ≡ slice_index bytes.now i) × (result < 256) }
{
    u64::from(byte_at(bytes, i))
}

// The number in the first 8 bytes. By hand: missing bytes are zeros, where from_le_bytes asks for all 8.
pub fn word_of(bytes: &[u8]) -> u64
    ensures { result ≡ number_in (take 8 bytes.now) }
{
    let high = wide_at(bytes, 4)
        + 256 * (wide_at(bytes, 5) + 256 * (wide_at(bytes, 6) + 256 * wide_at(bytes, 7)));
    let low = wide_at(bytes, 0)
        + 256 * (wide_at(bytes, 1) + 256 * (wide_at(bytes, 2) + 256 * wide_at(bytes, 3)));
    high * 0x1_0000_0000 + low
}

// The key in the first 10 bytes.
pub fn key_of(bytes: &[u8]) -> Key
    ensures { result ≡ key_of (number_in (take key_bytes bytes.now)) }
{
    let high = wide_at(bytes, 8) + 256 * wide_at(bytes, 9);
    Key {
        low: word_of(bytes),
        high: high as u16,
    }
}

// A number in as many bytes as are lent for it, low byte first: what is too large for them is cut off. By hand: to_le_bytes
// gives 8, whatever is lent.
pub fn put_number(x: u64, out: &mut [u8])
    ensures { out.new ≡ bytes_of (length out.old) x }
{
    let mut rest = x;
    for byte in out.iter_mut() {
        *byte = (rest % 256) as u8;
        rest = rest / 256;
    }
}

fn write_key(key: Key, out: &mut [u8])
    requires { length out.old ≡ key_bytes }
    ensures { out.new ≡ bytes_of key_bytes (key_number key) }
{
    put_number(key.low, &mut out[0..katan::WORD_BYTES]);
    put_number(
        u64::from(key.high),
        &mut out[katan::WORD_BYTES..katan::KEY_BYTES],
    );
}

// A key, into memory of 10 bytes.
pub fn put_key(key: Key, out: &mut [u8])
    ensures { out.new ≡ fitted key_bytes (bytes_of key_bytes (key_number key)) out.old }
{
    if out.len() == katan::KEY_BYTES {
        write_key(key, out);
    }
}

// A copy of any items, into memory of as many: other memory is left as it was.
pub fn put_copy<T: Copy>(items: &[T], out: &mut [T])
    ensures { out.new ≡ pick (eqb (length out.old) (length items.now)) items.now out.old }
{
    if out.len() == items.len() {
        // A loop, since of copy_from_slice between two slices that C lends LLVM makes memmove, which the archive does not take.
        for (i, item) in out.iter_mut().enumerate() {
            *item = items[i];
        }
    }
}

// Bit i of a word, 0 past its end.
pub fn bit_of(x: u64, i: usize) -> u64
    ensures { result ≡ bit x i }
{
    if i < katan::WORD_BITS {
        (x >> i) & 1
    } else {
        0
    }
}

// Whether a word is 2^n or more: check 7 of a block, and of a lane's registers.
pub fn too_wide(n: usize, x: u64) -> bool
    ensures { result ≡ nat_le (2 ^ n) x }
{
    if n < katan::WORD_BITS {
        (1 << n) <= x
    } else {
        false
    }
}

// L1 and L2 of a block.
pub fn registers_of(row: Row, x: u64) -> Registers
    ensures { result ≡ registers row x }
{
    if row.len2 < katan::WORD_BITS {
        Registers {
            l1: x >> row.len2,
            l2: x % (1 << row.len2),
        }
    } else {
        Registers { l1: 0, l2: x }
    }
}

// The block of L1 and L2: what is too large for a word is cut off.
pub fn block_of(row: Row, s: Registers) -> u64
    ensures { result ≡ block row s % 2 ^ 64 }
{
    if row.len2 < katan::WORD_BITS {
        (s.l1 << row.len2).wrapping_add(s.l2)
    } else {
        s.l2
    }
}
