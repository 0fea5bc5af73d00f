// The calls of a driver that open a bench, and that send it a record or try one: numbers, and lent slices. Each returns 0 or document 01's number of
// the first fault found, and a refused call leaves every lent output as it was, but for a preview's room.
// The status is a number and no Result, and parameters come one by one: `driver` hands them on to C as they are.
#![tactic(auto)]

ghost use Rattle.std.specs.Prelude.{◌≡◌};
ghost use Rattle.katan.specs.Checks.{outcome};
ghost use Rattle.katan.specs.Lent.{status_of};
ghost use Rattle.driver_bench.specs.Calls.{reply_words, open_call, opened_bench, opened_link, arrive_call, arrived_bench, arrived_link, arrived_answer, preview_call, previewed_answer, previewed_room};

use bench::Reply;
use driver_layout::{BENCH_LENGTH, LINK_LENGTH, bench_in, link_in, put_bench, put_link};
use driver_reads::bench_or_length;
use katan::Refusal;
use katan_variants::status;

// The words lent for the answer to an arrival or a preview.
const ARRIVAL_WORDS: usize = 3;

// The first word of the answer to an arrival or a preview: numbers, since C reads them (KATAN_DONE, KATAN_AGAIN of katan_bench.h).
const DONE: u32 = 0;

const AGAIN: u32 = 1;

// A reply in words: 'done' or 'again', then number and total.
fn reply_words(reply: Reply) -> [u32; ARRIVAL_WORDS]
    ensures { result ≡ reply_words reply }
{
    match reply {
        Reply::Done { number, total } => [DONE, number, total],
        Reply::Again { number, total } => [AGAIN, number, total],
    }
}

// A fresh bench and link, where variant and lent memory are sound.
fn put_opened(variant: u8, bench: &mut [u8], link: &mut [u8]) -> Result<(), Refusal>
    ensures value { status_of (outcome result) ≡ status_of (open_call variant bench.old link.old) }
    ensures bench_after { bench.new ≡ opened_bench variant bench.old link.old }
    ensures link_after { link.new ≡ opened_link variant bench.old link.old }
{
    if katan_variants::bad_variant(variant) {
        return Err(Refusal::BadVariant);
    }
    if bench.len() != BENCH_LENGTH || link.len() != LINK_LENGTH {
        return Err(Refusal::BadLength);
    }
    put_bench(bench_fresh::fresh_bench(variant), bench);
    put_link(bench_fresh::fresh_link(), link);
    Ok(())
}

// What an arrival leaves, and its answer, where bench and lent memory are sound and the record is not refused. Bench and link are written only by an
// arrival that counts.
#[tactic(auto, unfolding(crate::specs::Calls::arrive_call))]
fn put_arrival(
    bench: &mut [u8],
    link: &mut [u8],
    sent: &[u8],
    answer: &mut [u32],
) -> Result<(), Refusal>
    ensures value { status_of (outcome result) ≡ status_of (arrive_call bench.old link.old sent.now answer.old) }
    ensures bench_after { bench.new ≡ arrived_bench bench.old link.old sent.now answer.old }
    ensures link_after { link.new ≡ arrived_link bench.old link.old sent.now answer.old }
    ensures answer_after { answer.new ≡ arrived_answer bench.old link.old sent.now answer.old }
{
    if bench.len() != BENCH_LENGTH {
        return Err(Refusal::BadLength);
    }
    let found = bench_in(bench);
    if bench_checks::bad_bench(found) {
        return Err(Refusal::BadVariant);
    }
    if link.len() != LINK_LENGTH || answer.len() != ARRIVAL_WORDS {
        return Err(Refusal::BadLength);
    }
    let after = bench_stepping::arrive_once(found, link_in(link), sent);
    let reply = after.reply?;
    if let Reply::Done { .. } = reply {
        put_bench(after.bench, bench);
        put_link(after.link, link);
    }
    answer.copy_from_slice(&reply_words(reply));
    Ok(())
}

// What a preview shows, and its answer. The bench that it shows is written over a copy of the one it was made from; where the record would not count, the
// copy is that already. With all lengths right check 1 is the preview's own.
#[tactic(auto, using(crate::proofs::Held::found_by_itself), unfolding(crate::specs::Calls::preview_call, crate::specs::Calls::arrive_call, bench::specs::Preview::preview_of))]
fn put_preview(
    bench: &[u8],
    link: &[u8],
    sent: &[u8],
    answer: &mut [u32],
    room: &mut [u8],
) -> Result<(), Refusal>
    ensures value { status_of (outcome result) ≡ status_of (preview_call bench.now link.now sent.now answer.old room.old) }
    ensures answer_after { answer.new ≡ previewed_answer bench.now link.now sent.now answer.old room.old }
    ensures room_after { room.new ≡ previewed_room bench.now link.now sent.now answer.old room.old }
{
    if bench.len() != BENCH_LENGTH {
        return Err(Refusal::BadLength);
    }
    katan_numbers::put_copy(bench, room);
    let found = bench_in(bench);
    if link.len() != LINK_LENGTH || answer.len() != ARRIVAL_WORDS || room.len() != BENCH_LENGTH {
        return Err(bench_or_length(found));
    }
    let shown = bench_stepping::preview(found, link_in(link), sent);
    let reply = shown.reply?;
    if let Reply::Done { .. } = reply {
        put_bench(shown.bench, room);
    }
    answer.copy_from_slice(&reply_words(reply));
    Ok(())
}

// Opens a fresh bench with its fresh link. A lane's bytes but for its state are kept.
pub fn open(variant: u8, bench: &mut [u8], link: &mut [u8]) -> u8
    ensures { (result ≡ status_of (open_call variant bench.old link.old))
        × (bench.new ≡ opened_bench variant bench.old link.old)
        × (link.new ≡ opened_link variant bench.old link.old) }
{
    status(put_opened(variant, bench, link))
}

// A record of any bytes and length arrives.
pub fn arrive(bench: &mut [u8], link: &mut [u8], sent: &[u8], answer: &mut [u32]) -> u8
    ensures { (result ≡ status_of (arrive_call bench.old link.old sent.now answer.old))
        × (bench.new ≡ arrived_bench bench.old link.old sent.now answer.old)
        × (link.new ≡ arrived_link bench.old link.old sent.now answer.old)
        × (answer.new ≡ arrived_answer bench.old link.old sent.now answer.old) }
{
    status(put_arrival(bench, link, sent, answer))
}

// What a record would be answered, and, in the room, the memory of the bench that it would leave, on a refusal the bench's own; where bench or room has
// another length the room is left alone.
pub fn preview(bench: &[u8], link: &[u8], sent: &[u8], answer: &mut [u32], room: &mut [u8]) -> u8
    ensures { (result ≡ status_of (preview_call bench.now link.now sent.now answer.old room.old))
        × (answer.new ≡ previewed_answer bench.now link.now sent.now answer.old room.old)
        × (room.new ≡ previewed_room bench.now link.now sent.now answer.old room.old) }
{
    status(put_preview(bench, link, sent, answer, room))
}
