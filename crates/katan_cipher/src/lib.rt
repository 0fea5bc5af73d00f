// One block: encryption and decryption.
#![tactic(auto)]

ghost use Rattle.std.specs.Prelude.{◌≡◌, ◌≤◌};
ghost use Rattle.katan.specs.Bit.{number_in};
ghost use Rattle.katan.specs.Checks.{outcome};
ghost use Rattle.katan.specs.Counter.{rounds};
ghost use Rattle.katan.specs.Machine.{registers_at};
ghost use Rattle.katan_cipher.specs.Answers.{block_answer, encrypt_answer, decrypt_answer};

use katan::{Refusal, RoundPosition};

// A block from one position to another, with the key in bytes. Variant and key come one by one, as the calls have them.
fn block_at(
    variant: u8,
    key: &[u8],
    from: RoundPosition,
    to: RoundPosition,
    x: u64,
) -> Result<u64, Refusal>
    requires { (from.0 ≤ rounds) × (to.0 ≤ rounds) }
    ensures { outcome result ≡ block_answer variant key.now x (registers_at variant (number_in key.now) from.0 x to.0) }
{
    if katan_variants::bad_variant(variant) {
        return Err(Refusal::BadVariant);
    }
    if key.len() != katan::KEY_BYTES {
        return Err(Refusal::BadLength);
    }
    katan_registers::registers_at(variant, katan_numbers::key_of(key), from, to, x)
}

// Encryption: a load at 0 read at 254. Both ways are one call of block_at, and callers hand each on as a function.
pub fn encrypt(variant: u8, key: &[u8], block: u64) -> Result<u64, Refusal>
    ensures { outcome result ≡ encrypt_answer variant key.now block }
{
    let start = RoundPosition(0);
    let end = RoundPosition(katan::ROUNDS);
    block_at(variant, key, start, end, block)
}

// Decryption: the reverse.
pub fn decrypt(variant: u8, key: &[u8], block: u64) -> Result<u64, Refusal>
    ensures { outcome result ≡ decrypt_answer variant key.now block }
{
    let start = RoundPosition(0);
    let end = RoundPosition(katan::ROUNDS);
    block_at(variant, key, end, start, block)
}
