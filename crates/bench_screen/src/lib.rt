// All lanes on the screen: the registers of every lane that a mask names, in one pass over the bench.
#![tactic(auto)]

ghost use Rattle.std.specs.Prelude.{◌≡◌, [], ◌∷◌, Ok, Err};
ghost use Rattle.katan.specs.Bit.{pick};
ghost use Rattle.katan.specs.Checks.{outcome};
ghost use Rattle.katan.specs.declared.Refusal.TheVariants.{BadVariant};
ghost use Rattle.bench.specs.Checks.{bench_check};
ghost use Rattle.bench.specs.Bench.{lane_view, lanes_of, held_check};
ghost use Rattle.bench_screen.specs.Screen.{number_shown, bit_shown, numbers_shown, mask_shown, screen_answer, screen_numbers};

use bench::{Bench, Loaded};
use katan::{LANES, Refusal};

// What a look at a lane in which check 1 finds no fault finds: the number that it shows, and its bit of the mask shown. The bit and no Option:
// numbers and mask are filled the same way whether a lane shows or not.
#[derive(Clone, Copy)]
struct LaneSeen {
    number: u64,
    bit: u64,
}

// The same of all lanes.
#[derive(Clone, Copy)]
struct Seen {
    numbers: [u64; LANES],
    shown: u64,
}

// One look at a lane; `named` is its bit of the mask.
fn lane_seen(variant: u8, lane: Option<Loaded>, named: u64) -> Result<LaneSeen, Refusal>
    ensures { result ≡ pick (bench_check variant (lane_view lane ∷ [])).fault (Err BadVariant)
        (Ok (record { number = number_shown named (lane_view lane); bit = bit_shown named (lane_view lane) })) }
{
    if bench_checks::bad_lane(variant, lane) {
        return Err(Refusal::BadVariant);
    }
    Ok(match lane {
        None => LaneSeen { number: 0, bit: 0 },
        Some(h) => LaneSeen {
            number: if named == 1 { h.registers } else { 0 },
            bit: named,
        },
    })
}

// The one pass over the bench. Its numbers are its own: a fault in the last lane must still leave the lent ones as they were.
fn look(bench: Bench, mask: u64) -> Result<Seen, Refusal>
    ensures { result ≡ pick (held_check bench).fault (Err BadVariant)
        (Ok (record { numbers = numbers_shown mask (lanes_of bench); shown = mask_shown mask (lanes_of bench) })) }
{
    let mut numbers = [0u64; LANES];
    let mut shown: u64 = 0;
    for (i, lane) in bench.slots.iter().enumerate() {
        let found = lane_seen(bench.variant, *lane, katan_numbers::bit_of(mask, i))?;
        numbers[i] = found.number;
        shown += found.bit << i;
    }
    Ok(Seen { numbers, shown })
}

// Fills the lent numbers, one for each lane, and answers the mask of the named lanes that are loaded.
pub fn screen(bench: Bench, mask: u64, out: &mut [u64]) -> Result<u64, Refusal>
    ensures result_value { outcome result ≡ screen_answer bench mask out.old }
    ensures out_after { out.new ≡ screen_numbers bench mask out.old }
{
    let all = look(bench, mask)?;
    if out.len() != LANES {
        return Err(Refusal::BadLength);
    }
    if mask == 0 {
        return Err(Refusal::EmptyMask);
    }
    out.copy_from_slice(&all.numbers);
    Ok(all.shown)
}
