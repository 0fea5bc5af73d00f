// The rate sheet: cycles of a number of blocks, and the bit rate of a variant.
#![tactic(auto)]

ghost use Rattle.std.specs.Prelude.{◌≡◌};
ghost use Rattle.katan.specs.Checks.{outcome};
ghost use Rattle.katan_rate.specs.Rate.{cycles_of, rate_answer};

use katan::Refusal;

// The cycles that a block takes: one for loading, and its rounds.
const BLOCK_CYCLES: u64 = katan::ROUNDS as u64 + 1;

// The highest clock rate, in hertz.
const HIGHEST_RATE: u64 = 2940000000;

pub fn cycles(blocks: u32) -> u64
    ensures { result ≡ cycles_of blocks }
{
    BLOCK_CYCLES * u64::from(blocks)
}

pub fn bit_rate(variant: u8, hertz: u64) -> Result<u64, Refusal>
    ensures { outcome result ≡ rate_answer variant hertz }
{
    let row = katan_variants::row_of(variant)?;
    if hertz == 0 || HIGHEST_RATE < hertz {
        return Err(Refusal::BadRate);
    }
    // std has no From from usize.
    Ok(row.n as u64 * hertz / BLOCK_CYCLES)
}
