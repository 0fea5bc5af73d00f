// What a record that counts makes of the bench.
ghost use Rattle.std.specs.Prelude.{◌≡◌, ◌<◌};
ghost use Rattle.katan.specs.Sizes.{lane_count};
ghost use Rattle.bench_record.specs.Fields.{kind, load as load_kind};
ghost use Rattle.bench.specs.Steps.{loaded_by, slots_as, total_as};
ghost use Rattle.bench_moves.specs.Moves.{with_slots};
ghost use Rattle.bench_moves.specs.inner.Sound.{SoundBench};

use bench::{Bench, Loaded};
use bench_moves::{BenchStep, Motion, step_lanes};
use bench_record::{Kind, Record};
use katan::RoundPosition;

// What a load puts into its lane.
fn loaded_by(fields: Record) -> Loaded
    ensures { result ≡ loaded_by fields }
{
    Loaded {
        key: fields.key,
        position: RoundPosition(fields.count),
        registers: fields.block,
    }
}

fn load(bench: Bench, fields: Record) -> Bench
    requires { fields.lane < lane_count }
    ensures { result ≡ with_slots bench (slots_as bench.variant load_kind fields bench.slots) }
{
    let mut after = bench;
    after.slots[usize::from(fields.lane)] = Some(loaded_by(fields));
    after
}

// The step that the kind names: the record has it as a byte, so it is matched here, once.
pub fn step(bench: Bench, fields: Record) -> BenchStep
    requires { SoundBench bench × (fields.lane < lane_count) }
    ensures { (result.bench ≡ with_slots bench (slots_as bench.variant (kind fields) fields bench.slots)) × (result.total ≡ total_as (kind fields) fields bench.slots) }
{
    let mask = fields.mask;
    match Kind::try_from(fields.kind) {
        Ok(Kind::Load) => BenchStep {
            bench: load(bench, fields),
            total: 0,
        },
        Ok(Kind::Forward) => step_lanes(bench, Motion::Forward(fields.count), mask),
        Ok(Kind::Back) => step_lanes(bench, Motion::Back(fields.count), mask),
        Ok(Kind::Clear) => step_lanes(bench, Motion::Clear, mask),
        Err(_) => BenchStep { bench, total: 0 },
    }
}
