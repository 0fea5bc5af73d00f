// The call of a driver that runs a whole list of calls. It returns 0 or document 01's number of the first fault found, and where it is refused leaves
// every lent output as it was.
// The status is a number and no Result, and parameters come one by one: `driver` hands them on to C as they are.
#![tactic(auto)]

ghost use Rattle.std.specs.Prelude.{◌≡◌};
ghost use Rattle.katan.specs.Checks.{outcome};
ghost use Rattle.katan.specs.Lent.{status_of};
ghost use Rattle.driver_replay.specs.Calls.{replay_call, replayed_bench, replayed_answers};

use driver_layout::{BENCH_LENGTH, put_bench};
use katan::Refusal;
use katan_variants::status;

// A replay's answers and its bench, over the bytes lent for it, where variant and lent memory are sound and the list is not refused.
#[tactic(auto, unfolding(crate::specs::Calls::replay_call))]
fn put_replayed(
    variant: u8,
    calls: &[u8],
    bench: &mut [u8],
    answers: &mut [u8],
) -> Result<(), Refusal>
    ensures value { status_of (outcome result) ≡ status_of (replay_call variant calls.now bench.old answers.old) }
    ensures bench_after { bench.new ≡ replayed_bench variant calls.now bench.old answers.old }
    ensures answers_after { answers.new ≡ replayed_answers variant calls.now bench.old answers.old }
{
    if katan_variants::bad_variant(variant) {
        return Err(Refusal::BadVariant);
    }
    if bench.len() != BENCH_LENGTH {
        return Err(Refusal::BadLength);
    }
    let after = bench_replay::replay(variant, calls, answers);
    after.answer?;
    put_bench(after.bench, bench);
    Ok(())
}

// Runs a whole list of calls on a fresh bench and link.
pub fn replay(variant: u8, calls: &[u8], bench: &mut [u8], answers: &mut [u8]) -> u8
    ensures { (result ≡ status_of (replay_call variant calls.now bench.old answers.old))
        × (bench.new ≡ replayed_bench variant calls.now bench.old answers.old)
        × (answers.new ≡ replayed_answers variant calls.now bench.old answers.old) }
{
    status(put_replayed(variant, calls, bench, answers))
}
