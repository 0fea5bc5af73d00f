// The calls of a driver that only read a bench: numbers, and lent slices. Each returns 0 or document 01's number of the first fault found, and a refused
// call leaves every lent output as it was.
// The status is a number and no Result, and parameters come one by one: `driver` hands them on to C as they are.
#![tactic(auto)]

ghost use Rattle.std.specs.Prelude.{◌≡◌};
ghost use Rattle.katan.specs.Bit.{pick};
ghost use Rattle.katan.specs.Checks.{number_of, outcome};
ghost use Rattle.katan.specs.Lent.{status_of, lent_after};
ghost use Rattle.bench.specs.Bench.{held_check};
ghost use Rattle.driver_reads.specs.Calls.{response_words, read_call, shown_word, screen_call, screened_numbers};

use bench::Bench;
use driver_layout::{BENCH_LENGTH, bench_in};
use katan::Refusal;
use katan_variants::status;

// The words lent for the answer to a read, and for the mask that a screen shows.
const READING_WORDS: usize = 2;

const SHOWN_WORDS: usize = 1;

// A lane's reading, where bench and lent memory are sound and the lane is loaded.
#[tactic(auto, unfolding(crate::specs::Calls::read_call))]
fn put_reading(bench: &[u8], lane: u64, answer: &mut [u64]) -> Result<(), Refusal>
    ensures value { status_of (outcome result) ≡ status_of (read_call bench.now lane answer.old) }
    ensures answer_after { answer.new ≡ lent_after response_words (read_call bench.now lane answer.old) answer.old }
{
    if bench.len() != BENCH_LENGTH {
        return Err(Refusal::BadLength);
    }
    let found = bench_in(bench);
    if bench_checks::bad_bench(found) {
        return Err(Refusal::BadVariant);
    }
    if answer.len() != READING_WORDS {
        return Err(Refusal::BadLength);
    }
    // A word of this machine loses nothing as usize; std has no From for it.
    let reading = bench_stepping::read(found, lane as usize)?;
    answer[0] = u64::from(reading.position.0);
    answer[1] = reading.registers;
    Ok(())
}

// Reads a lane of any number.
pub fn read(bench: &[u8], lane: u64, answer: &mut [u64]) -> u8
    ensures value { result ≡ status_of (read_call bench.now lane answer.old) }
    ensures answer_after { answer.new ≡ lent_after response_words (read_call bench.now lane answer.old) answer.old }
{
    status(put_reading(bench, lane, answer))
}

// Why a call is refused where other lent memory than the bench has another length: 1 stands before that.
pub fn bench_or_length(found: Bench) -> Refusal
    ensures { number_of result ≡ pick (held_check found).fault 1 2 }
{
    if bench_checks::bad_bench(found) {
        Refusal::BadVariant
    } else {
        Refusal::BadLength
    }
}

// The lanes of a mask, where bench and lent memory are sound. With all lengths right check 1 is the screen's own: it looks at each lane once.
#[tactic(auto, unfolding(crate::specs::Calls::screen_call))]
fn put_shown(bench: &[u8], mask: u64, out: &mut [u64], shown: &mut [u64]) -> Result<(), Refusal>
    ensures value { status_of (outcome result) ≡ status_of (screen_call bench.now mask out.old shown.old) }
    ensures out_after { out.new ≡ screened_numbers bench.now mask out.old shown.old }
    ensures shown_after { shown.new ≡ lent_after shown_word (screen_call bench.now mask out.old shown.old) shown.old }
{
    if bench.len() != BENCH_LENGTH {
        return Err(Refusal::BadLength);
    }
    let found = bench_in(bench);
    if shown.len() != SHOWN_WORDS {
        return Err(bench_or_length(found));
    }
    shown[0] = bench_screen::screen(found, mask, out)?;
    Ok(())
}

// Reads every lane of a mask.
pub fn screen(bench: &[u8], mask: u64, out: &mut [u64], shown: &mut [u64]) -> u8
    ensures { (result ≡ status_of (screen_call bench.now mask out.old shown.old))
        × (out.new ≡ screened_numbers bench.now mask out.old shown.old)
        × (shown.new ≡ lent_after shown_word (screen_call bench.now mask out.old shown.old) shown.old) }
{
    status(put_shown(bench, mask, out, shown))
}
