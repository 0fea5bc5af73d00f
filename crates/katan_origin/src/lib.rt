// Where did this bit come from: fa and fb of one of the first clocks, followed back to the block.
#![tactic(auto)]

ghost use Rattle.std.specs.Prelude.{◌≡◌};
ghost use Rattle.katan.specs.Checks.{outcome};
ghost use Rattle.katan.specs.Key.{key_number};
ghost use Rattle.katan_origin.specs.Origin.{origin_of, origin_answer};

use crate::chains::{Clock, Run};
use katan::{ClockNumber, KEY_BYTES, Refusal};

mod chains;

// fa and fb of a clock, and how many block bits were looked up for both.
#[derive(Clone, Copy)]
pub struct ClockBits {
    pub fa: u64,
    pub fb: u64,
    pub looked_up: u64,
}

// The last clock number that is answered.
const LAST_CLOCK: usize = 23;

// Both bits of a clock, each by its chain.
fn both_bits(clock: Clock<'_>) -> ClockBits
    ensures { result ≡ origin_of clock.entry.run.now.variant (key_number clock.entry.run.now.key) clock.entry.run.now.block clock.entry.number.0 }
{
    let a = clock.fa();
    let b = clock.fb();
    ClockBits {
        fa: a.bit,
        fb: b.bit,
        looked_up: a.count + b.count,
    }
}

// fa and fb of a clock of the block at position 0.
pub fn origin(variant: u8, key: &[u8], block: u64, clock: ClockNumber) -> Result<ClockBits, Refusal>
    ensures { outcome result ≡ origin_answer variant key.now block clock.0 }
{
    let row = katan_variants::row_of(variant)?;
    if key.len() != KEY_BYTES {
        return Err(Refusal::BadLength);
    }
    if LAST_CLOCK < clock.0 {
        return Err(Refusal::BadClock);
    }
    if katan_numbers::too_wide(row.n, block) {
        return Err(Refusal::BadBlock);
    }
    let run = Run {
        variant,
        row,
        key: katan_numbers::key_of(key),
        block,
    };
    Ok(both_bits(Clock {
        run: &run,
        number: clock,
    }))
}
