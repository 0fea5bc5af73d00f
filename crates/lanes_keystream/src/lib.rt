// A keystream: counter mode, 64 blocks at a time through the lanes, with one key.
#![tactic(auto)]

ghost use Rattle.std.specs.Prelude.{◌≡◌, ◌+◌, ◌-◌, ◌/◌, ◌^◌, ◌≤◌, ltb};
ghost use Rattle.katan.specs.Checks.{outcome};
ghost use Rattle.katan.specs.Sizes.{word_bits, word_bytes};
ghost use Rattle.lanes_keystream.specs.Stream.{longest_message, stream_answer, stream_of};

use crate::batch::combine_all;
use katan::{KEY_BYTES, Refusal};

mod batch;

// The most bytes of a message.
const LONGEST_MESSAGE: usize = 4096;

// How many blocks of so many bytes a message takes: the last may be short.
fn block_count(size: usize, length: usize) -> usize
    requires { (1 ≤ size) × (size ≤ word_bytes) × (length ≤ longest_message) }
    ensures { result ≡ (length + (size - 1)) / size }
{
    length.div_ceil(size)
}

// Whether the start plus the number of blocks exceeds 2^n. At n = 64 neither of them need fit a word.
fn past_the_end(n: usize, start: u64, blocks: usize) -> bool
    requires { n ≤ word_bits }
    ensures { result ≡ ltb (2 ^ n) (start + blocks) }
{
    // as: no From leads from usize.
    (1u128 << n) < u128::from(start) + blocks as u128
}

// Encrypts or decrypts a message, which is the same: each byte is combined with the stream's.
pub fn keystream(
    variant: u8,
    key: &[u8],
    start: u64,
    message: &[u8],
    out: &mut [u8],
) -> Result<(), Refusal>
    ensures result_value { outcome result ≡ stream_answer variant key.now start message.now out.old }
    ensures out_after { out.new ≡ stream_of variant key.now start message.now out.old }
{
    let row = katan_variants::row_of(variant)?;
    if key.len() != KEY_BYTES || out.len() != message.len() {
        return Err(Refusal::BadLength);
    }
    if LONGEST_MESSAGE < message.len() {
        return Err(Refusal::BeyondEnd);
    }
    let size = row.n / 8;
    let blocks = block_count(size, message.len());
    if past_the_end(row.n, start, blocks) {
        return Err(Refusal::BeyondEnd);
    }
    if katan_numbers::too_wide(row.n, start) {
        return Err(Refusal::BadBlock);
    }
    combine_all(variant, size, blocks, key, start, message, out);
    Ok(())
}
