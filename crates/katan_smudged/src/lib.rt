// Blocks with smudged bits: rounds on bits of which some are unknown.
#![tactic(auto)]

ghost use Rattle.std.specs.Prelude.{◌≡◌};
ghost use Rattle.katan.specs.Checks.{outcome};
ghost use Rattle.katan_sheet.specs.Answers.{smudged_answer};

use crate::rounds::smudged_to;
use katan::{Refusal, RoundPosition};
use katan_sheet::{KnownBits, Sheet};

mod rounds;
mod words;

// What is known of the registers at a position, with the block in them at position 0.
pub fn smudged(variant: u8, sheet: Sheet<&[u8]>, to: RoundPosition) -> Result<KnownBits, Refusal>
    ensures { outcome result ≡ smudged_answer variant sheet.entry.block sheet.entry.key.ones.now sheet.entry.key.zeros.now to.0 }
{
    let row = katan_variants::row_of(variant)?;
    if katan_sheet::bad_length(sheet.key) {
        return Err(Refusal::BadLength);
    }
    if katan::ROUNDS < to.0 {
        return Err(Refusal::BadPosition);
    }
    if katan_sheet::too_wide(row.n, sheet.block) {
        return Err(Refusal::BadBlock);
    }
    let block = sheet.block;
    let key = katan_sheet::key_of(sheet.key);
    if katan_sheet::contradictory(block, key) {
        return Err(Refusal::Contradiction);
    }
    Ok(smudged_to(variant, row, block, key, to))
}
