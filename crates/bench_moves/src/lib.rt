// A move or a clear: one lane from its own position with its own key, and all lanes that a mask names.
#![tactic(auto)]

ghost use Rattle.std.specs.Prelude.{◌≡◌, ◌≤◌, Some};
ghost use Rattle.katan.specs.Counter.{rounds};
ghost use Rattle.bench.specs.Steps.{loaded_at, step_slots, moved_slots};
ghost use Rattle.bench_moves.specs.inner.Sound.{SoundLane};
ghost use Rattle.bench_moves.specs.Moves.{lane_as, moved_as, step_lane, move_lane, with_slots};

use bench::{Bench, Loaded};
use katan::RoundPosition;

// What a record does to each lane that it names. It stays an enum, since what step_lanes promises is said of it.
#[derive(Clone, Copy)]
pub enum Motion {
    Forward(u8),
    Back(u8),
    Clear,
}

// A lane after a motion, and the positions that it moved.
#[derive(Clone, Copy)]
struct LaneStep {
    lane: Option<Loaded>,
    moved: u8,
}

// The bench after a record, and the record's total.
#[derive(Clone, Copy)]
pub struct BenchStep {
    pub bench: Bench,
    pub total: u32,
}

// What a loaded lane holds at a position. For one that is there already nothing is computed.
fn loaded_at(variant: u8, h: Loaded, p: RoundPosition) -> Loaded
    requires { SoundLane variant (Some h) × (p.0 ≤ rounds) }
    ensures { result ≡ loaded_at variant h p.0 }
{
    let from = h.position;
    if from.0 == p.0 {
        return h;
    }
    // Never refused: the checks of registers_at are among those of check 1.
    let x = katan_registers::registers_at(variant, h.key, from, p, h.registers).unwrap();
    Loaded {
        key: h.key,
        position: p,
        registers: x,
    }
}

// A move goes as far as the count says, or to the first or last position, where a lane waits.
fn sound_step(variant: u8, motion: Motion, lane: Option<Loaded>) -> LaneStep
    requires { SoundLane variant lane }
    ensures { (result.lane ≡ lane_as variant motion lane) × (result.moved ≡ moved_as motion lane) }
{
    match (motion, lane) {
        (Motion::Forward(count), Some(h)) => {
            let moved = count.min(katan::ROUNDS - h.position.0);
            let to = RoundPosition(h.position.0 + moved);
            LaneStep {
                lane: Some(loaded_at(variant, h, to)),
                moved,
            }
        }
        (Motion::Back(count), Some(h)) => {
            let moved = count.min(h.position.0);
            let to = RoundPosition(h.position.0 - moved);
            LaneStep {
                lane: Some(loaded_at(variant, h, to)),
                moved,
            }
        }
        // An empty lane stays empty, and a clear empties any.
        _ => LaneStep {
            lane: None,
            moved: 0,
        },
    }
}

// A lane in which check 1 finds a fault stays as it is.
fn lane_step(variant: u8, motion: Motion, lane: Option<Loaded>) -> LaneStep
    ensures { (result.lane ≡ step_lane variant motion lane) × (result.moved ≡ move_lane variant motion lane) }
{
    if bench_checks::bad_lane(variant, lane) {
        return LaneStep { lane, moved: 0 };
    }
    sound_step(variant, motion, lane)
}

// The lanes that a mask names, and the sum of the positions that they moved.
pub fn step_lanes(bench: Bench, motion: Motion, mask: u64) -> BenchStep
    ensures { (result.bench ≡ with_slots bench (step_slots (step_lane bench.variant motion) mask bench.slots))
        × (result.total ≡ moved_slots (move_lane bench.variant motion) mask bench.slots) }
{
    let variant = bench.variant;
    let mut slots = bench.slots;
    let mut total: u32 = 0;
    for (i, lane) in slots.iter_mut().enumerate() {
        if (mask >> i) % 2 == 1 {
            let after = lane_step(variant, motion, *lane);
            *lane = after.lane;
            total += u32::from(after.moved);
        }
    }
    BenchStep {
        bench: Bench { variant, slots },
        total,
    }
}
