// The stepping bench at work: an arrival, a preview, and a read.
#![tactic(auto)]

ghost use Rattle.std.specs.Prelude.{◌≡◌};
ghost use Rattle.bench.specs.Bench.{arrive_of, effect_of, read_of, reading_answer};
ghost use Rattle.bench.specs.Preview.{preview_of};
ghost use Rattle.bench_stepping.specs.Answers.{leaving, previewed_by};

use crate::counted::step;
use bench::{ArrivalResult, Bench, LentArrivalResult, Link, Reading, Reply};
use bench_checks::Turn;
use katan::Refusal;

mod counted;

// An arrival, with the link by value. Bench, link and record come one by one, as in the calls of README.
fn arrive_core(bench: Bench, link: Link, sent: &[u8]) -> ArrivalResult
    ensures { effect_of result ≡ arrive_of bench link sent.now }
{
    let found = bench_checks::decided(bench, link, sent);
    match found.decision {
        Ok(Turn::Counts) => {
            let number = found.fields.number;
            let after = step(bench, found.fields);
            let total = after.total;
            ArrivalResult {
                bench: after.bench,
                link: Link {
                    last: number,
                    bytes: bench_record::record_in(sent),
                    total,
                },
                reply: Ok(Reply::Done { number, total }),
            }
        }
        Ok(Turn::Repeats) => ArrivalResult {
            bench,
            link,
            reply: Ok(Reply::Again {
                number: link.last,
                total: link.total,
            }),
        },
        Err(refusal) => ArrivalResult {
            bench,
            link,
            reply: Err(refusal),
        },
    }
}

// The same with the link lent: it is altered only by a record that counts.
pub fn arrive(bench: Bench, link: &mut Link, sent: &[u8]) -> LentArrivalResult
    ensures { effect_of (leaving result link.new) ≡ arrive_of bench link.old sent.now }
{
    let after = arrive_core(bench, *link, sent);
    *link = after.link;
    LentArrivalResult {
        bench: after.bench,
        reply: after.reply,
    }
}

// For a caller with the link in a local: it is lent, and comes back.
pub fn arrive_once(bench: Bench, link: Link, sent: &[u8]) -> ArrivalResult
    ensures { effect_of result ≡ arrive_of bench link sent.now }
{
    let mut lent = link;
    let after = arrive(bench, &mut lent, sent);
    ArrivalResult {
        bench: after.bench,
        link: lent,
        reply: after.reply,
    }
}

// What a preview gives: the reply, and the copy with its 64 lanes, which a refused record leaves as they came.
#[derive(Clone, Copy)]
pub struct PreviewResult {
    pub bench: Bench,
    pub reply: Result<Reply, Refusal>,
}

// A record is tried first, on a copy: the caller's bench and link keep their contents.
pub fn preview(bench: Bench, link: Link, sent: &[u8]) -> PreviewResult
    ensures { previewed_by result ≡ preview_of bench link sent.now }
{
    let ArrivalResult {
        bench: copy,
        reply,
        ..
    } = arrive_once(bench, link, sent);
    PreviewResult { bench: copy, reply }
}

// Reading a lane of any number takes no number of the link.
pub fn read(bench: Bench, lane: usize) -> Result<Reading, Refusal>
    ensures { reading_answer result ≡ read_of bench lane }
{
    if bench_checks::bad_bench(bench) {
        return Err(Refusal::BadVariant);
    }
    let at = bench.slots.get(lane).ok_or(Refusal::BadLane)?;
    let h = at.ok_or(Refusal::EmptyLane)?;
    Ok(Reading {
        position: h.position,
        registers: h.registers,
    })
}
