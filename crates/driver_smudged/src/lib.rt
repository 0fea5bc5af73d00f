// The calls of a driver on sheets with smudged bits: numbers, and lent slices. Each returns 0 or the number of the first fault found, and a refused call
// leaves every lent output as it was.
// The status is a number and no Result, and parameters come one by one: `driver` hands them on to C as they are.
#![tactic(auto)]

ghost use Rattle.std.specs.Prelude.{◌≡◌, ◌≤◌, length};
ghost use Rattle.katan.specs.Checks.{position_check, outcome};
ghost use Rattle.katan.specs.Counter.{rounds};
ghost use Rattle.katan.specs.Lent.{status_of, lent_after};
ghost use Rattle.katan_sheet.specs.Answers.{key_known};
ghost use Rattle.driver_smudged.specs.Calls.{known_words, word_count, known_bytes, byte_count, smudged_call, join_call, joined_words, joined_bytes};

use katan::{KEY_BYTES, Refusal, RoundPosition};
use katan_sheet::{Known, KnownBits, KnownKey, Sheet};
use katan_variants::status;

// The words lent for the bits of a block, and the bytes lent for those of a key.
const WORDS: usize = 2;

const BYTES: usize = 20;

// A number as a position: one over 254 stays over 254.
fn position_of(position: u64) -> RoundPosition
    ensures { (position_check result.0 ≡ position_check position) × (position ≤ rounds → result.0 ≡ position) }
{
    RoundPosition(u8::try_from(position).unwrap_or(u8::MAX))
}

// A sheet of what is lent.
fn sheet_of<'a>(ones: u64, zeros: u64, key_ones: &'a [u8], key_zeros: &'a [u8]) -> Sheet<&'a [u8]>
    ensures { (result.block ≡ record { ones = ones; zeros = zeros }) × (result.key.ones.now ≡ key_ones.now) × (result.key.zeros.now ≡ key_zeros.now) }
{
    Sheet {
        block: Known { ones, zeros },
        key: Known {
            ones: key_ones,
            zeros: key_zeros,
        },
    }
}

fn put_words(known: KnownBits, out: &mut [u64])
    requires { length out.old ≡ word_count }
    ensures { out.new ≡ known_words known }
{
    out[0] = known.ones;
    out[1] = known.zeros;
}

fn put_bytes(key: KnownKey, out: &mut [u8])
    requires { length out.old ≡ byte_count }
    ensures { out.new ≡ known_bytes (key_known key) }
{
    let (ones, zeros) = out.split_at_mut(KEY_BYTES);
    katan_numbers::put_key(key.ones, ones);
    katan_numbers::put_key(key.zeros, zeros);
}

// A run of a sheet, where variant and lent memory are sound and the run is not refused.
fn put_run(variant: u8, sheet: Sheet<&[u8]>, position: u64, out: &mut [u64]) -> Result<(), Refusal>
    ensures value { status_of (outcome result) ≡ status_of (smudged_call variant sheet.entry.block sheet.entry.key.ones.now sheet.entry.key.zeros.now position out.old) }
    ensures out_after { out.new ≡ lent_after known_words (smudged_call variant sheet.entry.block sheet.entry.key.ones.now sheet.entry.key.zeros.now position out.old) out.old }
{
    if katan_variants::bad_variant(variant) {
        return Err(Refusal::BadVariant);
    }
    if out.len() != WORDS {
        return Err(Refusal::BadLength);
    }
    let known = katan_smudged::smudged(variant, sheet, position_of(position))?;
    put_words(known, out);
    Ok(())
}

// What is known of the registers at a position, with the block in them at position 0, into the two words of `out`: the bits known as 1, then those known
// as 0.
pub fn smudged(
    variant: u8,
    ones: u64,
    zeros: u64,
    key_ones: &[u8],
    key_zeros: &[u8],
    position: u64,
    out: &mut [u64],
) -> u8
    ensures value { result ≡ status_of (smudged_call variant (record { ones = ones; zeros = zeros }) key_ones.now key_zeros.now position out.old) }
    ensures out_after { out.new ≡ lent_after known_words (smudged_call variant (record { ones = ones; zeros = zeros }) key_ones.now key_zeros.now position out.old) out.old }
{
    let sheet = sheet_of(ones, zeros, key_ones, key_zeros);
    status(put_run(variant, sheet, position, out))
}

// A join of two sheets, where variant and lent memory are sound and the join is not refused.
fn put_joined(
    variant: u8,
    sheet: Sheet<&[u8]>,
    other: Sheet<&[u8]>,
    out: &mut [u64],
    key_out: &mut [u8],
) -> Result<(), Refusal>
    ensures value { status_of (outcome result) ≡ status_of (join_call variant sheet.entry.block sheet.entry.key.ones.now sheet.entry.key.zeros.now other.entry.block other.entry.key.ones.now other.entry.key.zeros.now out.old key_out.old) }
    ensures out_after { out.new ≡ lent_after joined_words (join_call variant sheet.entry.block sheet.entry.key.ones.now sheet.entry.key.zeros.now other.entry.block other.entry.key.ones.now other.entry.key.zeros.now out.old key_out.old) out.old }
    ensures key_after { key_out.new ≡ lent_after joined_bytes (join_call variant sheet.entry.block sheet.entry.key.ones.now sheet.entry.key.zeros.now other.entry.block other.entry.key.ones.now other.entry.key.zeros.now out.old key_out.old) key_out.old }
{
    if katan_variants::bad_variant(variant) {
        return Err(Refusal::BadVariant);
    }
    if out.len() != WORDS || key_out.len() != BYTES {
        return Err(Refusal::BadLength);
    }
    let joined = katan_sheet::join(variant, sheet, other)?;
    put_words(joined.block, out);
    put_bytes(joined.key, key_out);
    Ok(())
}

// What either of two sheets of one block knows: of the block into the two words of `out`, of the key into the 20 bytes of `key_out`, each time the bits
// known as 1 first.
pub fn join(
    variant: u8,
    ones: u64,
    zeros: u64,
    key_ones: &[u8],
    key_zeros: &[u8],
    other_ones: u64,
    other_zeros: u64,
    other_key_ones: &[u8],
    other_key_zeros: &[u8],
    out: &mut [u64],
    key_out: &mut [u8],
) -> u8
    ensures { (result ≡ status_of (join_call variant (record { ones = ones; zeros = zeros }) key_ones.now key_zeros.now (record { ones = other_ones; zeros = other_zeros }) other_key_ones.now other_key_zeros.now out.old key_out.old))
        × (out.new ≡ lent_after joined_words (join_call variant (record { ones = ones; zeros = zeros }) key_ones.now key_zeros.now (record { ones = other_ones; zeros = other_zeros }) other_key_ones.now other_key_zeros.now out.old key_out.old) out.old)
        × (key_out.new ≡ lent_after joined_bytes (join_call variant (record { ones = ones; zeros = zeros }) key_ones.now key_zeros.now (record { ones = other_ones; zeros = other_zeros }) other_key_ones.now other_key_zeros.now out.old key_out.old) key_out.old) }
{
    let sheet = sheet_of(ones, zeros, key_ones, key_zeros);
    let other = sheet_of(other_ones, other_zeros, other_key_ones, other_key_zeros);
    status(put_joined(variant, sheet, other, out, key_out))
}
