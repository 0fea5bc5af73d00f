// A whole list of calls, run on a fresh bench and link.
#![tactic(auto)]

ghost use Rattle.std.specs.Prelude.{◌≡◌, ℕ, ◌<◌, None, get_or};
ghost use Rattle.katan.specs.Checks.{outcome};
ghost use Rattle.katan.specs.Sizes.{lane_count};
ghost use Rattle.bench.specs.Bench.{lane_view};
ghost use Rattle.bench.specs.Model.{machine_view};
ghost use Rattle.bench.specs.Claim.{bench_after, machine_after};
ghost use Rattle.bench_replay.specs.Replay.{replay_answer, replay_output, calls_run};

use crate::calls::fits;
use crate::run::run;
use bench::Bench;
use katan::Refusal;

mod answers;
mod calls;
mod run;

// A call has a head: in byte 0 its kind, in bytes 1 to 4 a number, low byte first. An arrival's is the length of its record, which follows
// the head; a read's is the lane's.
pub const HEAD_LENGTH: usize = 5;

// An answer has 13 bytes: in byte 0 its kind, in bytes 1 to 4 the number, the position or the refusal's number, in bytes 5 to 12 the total
// or the registers, 0 for a refusal. Numbers are low byte first.
pub const ANSWER_LENGTH: usize = 13;

// The bench as the list left it, and the answer: nothing more where every call is run, or the first fault found. The bench stands beside it, since a refused list
// gives a fresh one.
#[derive(Clone, Copy)]
pub struct Replayed {
    pub bench: Bench,
    pub answer: Result<(), Refusal>,
}

// Each call's answer is written after the one before, and the output has room for exactly these. A refused list runs no call: the output is
// left as it was, and the bench given back is a fresh one.
pub fn replay(variant: u8, calls: &[u8], out: &mut [u8]) -> Replayed
    ensures answer_value { outcome result.answer ≡ replay_answer variant calls.now out.old }
    ensures out_after { out.new ≡ replay_output variant calls.now out.old }
    ensures bench_value { result.bench ≡ (bench_after variant (calls_run variant calls.now out.old)).bench }
    ensures by_index { (i : ℕ) → i < lane_count
        → lane_view (get_or result.bench.slots i None) ≡ machine_view variant (machine_after variant (calls_run variant calls.now out.old) i) }
{
    let bench = bench_fresh::fresh_bench(variant);
    if katan_variants::bad_variant(variant) {
        return Replayed {
            bench,
            answer: Err(Refusal::BadVariant),
        };
    }
    if !fits(calls, out.len()) {
        return Replayed {
            bench,
            answer: Err(Refusal::BadLength),
        };
    }
    Replayed {
        bench: run(bench, bench_fresh::fresh_link(), calls, out),
        answer: Ok(()),
    }
}
