// The calls of a list, run one by one.
ghost use Rattle.std.specs.Prelude.{◌≡◌, true, length};
ghost use Rattle.bench.specs.Calls.{state_after, answers_to};
ghost use Rattle.bench.specs.Bench.{bench_transition, reply_answer};
ghost use Rattle.bench_replay.specs.Encoding.{calls_in, answer_bytes, answers_bytes, fits};
ghost use Rattle.bench_replay.specs.inner.Steps.{call_view, state_of, field_bytes};

use crate::ANSWER_LENGTH;
use crate::answers::{Fields, read_fields, reply_fields, write};
use crate::calls::{Call, next_call};
use bench::{ArrivalResult, Bench, Link};

// What a call leaves, and its answer.
#[derive(Clone, Copy)]
pub struct AfterCall {
    pub bench: Bench,
    pub link: Link,
    pub answer: Fields,
}

fn arrived(after: ArrivalResult) -> AfterCall
    ensures { (result.bench ≡ after.bench) × (result.link ≡ after.link) × (field_bytes result.answer ≡ answer_bytes (reply_answer after.reply)) }
{
    AfterCall {
        bench: after.bench,
        link: after.link,
        answer: reply_fields(after.reply),
    }
}

// A call, on the bench and link that it finds.
fn transition(bench: Bench, link: Link, call: Call<'_>) -> AfterCall
    ensures { (state_of result.bench result.link ≡ (bench_transition (state_of bench link) (call_view call.entry)).0)
        × (field_bytes result.answer ≡ answer_bytes (bench_transition (state_of bench link) (call_view call.entry)).1) }
{
    match call {
        Call::Arrival(sent) => arrived(bench_stepping::arrive_once(bench, link, sent)),
        Call::Read(lane) => AfterCall {
            bench,
            link,
            answer: read_fields(bench_stepping::read(bench, lane)),
        },
    }
}

pub fn run(bench: Bench, link: Link, calls: &[u8], out: &mut [u8]) -> Bench
    requires { fits calls.now (length out.old) ≡ true }
    ensures { (result ≡ (state_after bench_transition (state_of bench link) (calls_in calls.now)).bench)
        × (out.new ≡ answers_bytes (answers_to bench_transition (state_of bench link) (calls_in calls.now))) }
{
    let mut bench = bench;
    let mut link = link;
    let mut rest = calls;
    // Where the next answer goes. Chunks of the output would not do: of what is written through them only its length is known.
    let mut to: usize = 0;
    while let Some((call, after)) = next_call(rest) {
        let next = transition(bench, link, call);
        bench = next.bench;
        link = next.link;
        write(next.answer, to, out);
        to += ANSWER_LENGTH;
        rest = after;
    }
    bench
}
