// The calls of a driver on one block, on many blocks, on a message, on a clock's bits and on the rate: numbers, and lent slices.
// Each returns 0 or the number of the first fault found, and a refused call leaves every lent output as it was.
// The status is a number and no Result, and parameters come one by one: `driver` hands them on to C as they are.
#![tactic(auto)]

ghost use Rattle.std.specs.Prelude.{◌≡◌, IfOk, length};
ghost use Rattle.katan.specs.Checks.{value, checked, outcome};
ghost use Rattle.katan.specs.Lent.{status_of, lent_after};
ghost use Rattle.lanes.specs.Many.{many_answer, many_of};
ghost use Rattle.lanes.specs.declared.Direction.TheVariants.{Encrypt, Decrypt};
ghost use Rattle.lanes_keystream.specs.Stream.{stream_answer, stream_of};
ghost use Rattle.katan_rate.specs.Rate.{cycles_of};
ghost use Rattle.driver_ciphers.specs.Calls.{interface_version, lent_checks, word, encrypt_call, decrypt_call, rate_call, clock_words, origin_call};

use katan::{ClockNumber, Refusal};
use katan_origin::ClockBits;
use katan_variants::status;
use lanes::Direction;

// The version of the calls: which there are, their parameters, numbers and layouts.
const VERSION: u32 = 8;

// Checks 1 and 2 of a call whose answer takes so many words, and that has this memory lent for it.
fn checked_lent(variant: u8, words: usize, out: &[u64]) -> Result<(), Refusal>
    ensures value { outcome result ≡ checked (lent_checks variant words out.now) (value tt) }
    ensures sized { IfOk result (λ _. length out.now ≡ words) }
{
    if katan_variants::bad_variant(variant) {
        return Err(Refusal::BadVariant);
    }
    if out.len() != words {
        return Err(Refusal::BadLength);
    }
    Ok(())
}

// An answer of N words into those lent for them, where variant and lent memory are sound and the call is not refused.
fn put_words<const N: usize>(
    variant: u8,
    answer: Result<[u64; N], Refusal>,
    out: &mut [u64],
) -> Result<(), Refusal>
    ensures value { status_of (outcome result) ≡ status_of (checked (lent_checks variant N out.old) (outcome answer.entry)) }
    ensures out_after { out.new ≡ lent_after (λ words. words) (checked (lent_checks variant N out.old) (outcome answer.entry)) out.old }
{
    checked_lent(variant, N, out)?;
    out.copy_from_slice(&answer?);
    Ok(())
}

// The words of an answer of one word.
fn one_word(x: u64) -> [u64; 1]
    ensures { result ≡ word x }
{
    [x]
}

// The two bits of a clock and the block bits looked up for them.
fn three_words(bits: ClockBits) -> [u64; 3]
    ensures { result ≡ clock_words bits }
{
    [bits.fa, bits.fb, bits.looked_up]
}

// Encrypts a block into the one word of `out`. There is a function for each of C's calls: what both ways share is put_words, and lanes::many over Direction.
pub fn encrypt(variant: u8, key: &[u8], block: u64, out: &mut [u64]) -> u8
    ensures value { result ≡ status_of (encrypt_call variant key.now block out.old) }
    ensures out_after { out.new ≡ lent_after word (encrypt_call variant key.now block out.old) out.old }
{
    let encrypted = katan_cipher::encrypt(variant, key, block);
    status(put_words(variant, encrypted.map(one_word), out))
}

// Decrypts a block into the one word of `out`. Each way is a call of its own, as in C.
pub fn decrypt(variant: u8, key: &[u8], block: u64, out: &mut [u64]) -> u8
    ensures value { result ≡ status_of (decrypt_call variant key.now block out.old) }
    ensures out_after { out.new ≡ lent_after word (decrypt_call variant key.now block out.old) out.old }
{
    let decrypted = katan_cipher::decrypt(variant, key, block);
    status(put_words(variant, decrypted.map(one_word), out))
}

// Encrypts 1 to 64 blocks, block i with the key in bytes 10i to 10i + 9.
pub fn encrypt_many(variant: u8, keys: &[u8], blocks: &[u64], out: &mut [u64]) -> u8
    ensures value { result ≡ status_of (many_answer variant keys.now blocks.now out.old) }
    ensures out_after { out.new ≡ many_of Encrypt variant keys.now blocks.now out.old }
{
    status(lanes::many(Direction::Encrypt, variant, keys, blocks, out))
}

// Decrypts 1 to 64 blocks: a call of its own, as in C.
pub fn decrypt_many(variant: u8, keys: &[u8], blocks: &[u64], out: &mut [u64]) -> u8
    ensures value { result ≡ status_of (many_answer variant keys.now blocks.now out.old) }
    ensures out_after { out.new ≡ many_of Decrypt variant keys.now blocks.now out.old }
{
    status(lanes::many(Direction::Decrypt, variant, keys, blocks, out))
}

// Encrypts or decrypts a message with the stream of the blocks from `start` on.
pub fn keystream(variant: u8, key: &[u8], start: u64, message: &[u8], out: &mut [u8]) -> u8
    ensures value { result ≡ status_of (stream_answer variant key.now start message.now out.old) }
    ensures out_after { out.new ≡ stream_of variant key.now start message.now out.old }
{
    status(lanes_keystream::keystream(variant, key, start, message, out))
}

// fa and fb of a clock, followed back to the block, and the block bits looked up, into the three words of `out`.
pub fn origin(variant: u8, key: &[u8], block: u64, clock: u64, out: &mut [u64]) -> u8
    ensures value { result ≡ status_of (origin_call variant key.now block clock out.old) }
    ensures out_after { out.new ≡ lent_after clock_words (origin_call variant key.now block clock out.old) out.old }
{
    // A word of this machine loses nothing as usize; std has no From for it.
    let found = katan_origin::origin(variant, key, block, ClockNumber(clock as usize));
    status(put_words(variant, found.map(three_words), out))
}

// The cycles that a number of blocks takes.
pub fn cycles(blocks: u32) -> u64
    ensures { result ≡ cycles_of blocks }
{
    katan_rate::cycles(blocks)
}

// The bit rate at a clock rate, into the one word of `out`.
pub fn bit_rate(variant: u8, hertz: u64, out: &mut [u64]) -> u8
    ensures value { result ≡ status_of (rate_call variant hertz out.old) }
    ensures out_after { out.new ≡ lent_after word (rate_call variant hertz out.old) out.old }
{
    let rate = katan_rate::bit_rate(variant, hertz);
    status(put_words(variant, rate.map(one_word), out))
}

// The version of the calls.
pub fn version() -> u32
    ensures { result ≡ interface_version }
{
    VERSION
}
