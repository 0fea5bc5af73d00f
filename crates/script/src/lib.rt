// The script: its lines, over an input that comes in pieces.
#![tactic(auto)]

ghost use Rattle.std.specs.Prelude.{◌≡◌, ◌+◌, ◌≤◌, length};
ghost use Rattle.std.proofs.Math.Seq.{paste};
ghost use Rattle.script_answers.specs.Printed.{printed_as, room};
ghost use Rattle.script_interpreter.specs.Session.{session_line, result_of};
ghost use Rattle.script.specs.Pieces.{started, line_in, at_end, on_piece, answered_as, written_to};
ghost use Rattle.script.specs.inner.Steps.{Steps};

use crate::splitting::{keep, line_end, shown};
use script_answers::{Printed, ROOM};
use script_command::LINE_LENGTH;
use script_interpreter::{LineResult, Session};

mod splitting;

// One byte more than a line may have: it tells that a line is too long.
pub const PENDING: usize = LINE_LENGTH + 1;

// How many bytes of the input the program reads at a time, and an output that has room for a line
// for each of them: so all of the piece is answered in one call.
pub const PIECE: usize = 4096;

pub const OUTPUT: usize = PIECE * ROOM;

// What has come of a line that has begun. No heap is a rule of the project: a fixed buffer, and how much of it is used.
#[derive(Clone, Copy)]
pub struct Pending {
    pub bytes: [u8; PENDING],
    pub length: usize,
}

// The session, and the line that has begun.
#[derive(Clone, Copy)]
pub struct Script {
    pub session: Session,
    pub pending: Pending,
}

// What a call leaves: the script, how many bytes of the piece it took, and how many it printed.
#[derive(Clone, Copy)]
pub struct Answered {
    pub script: Script,
    pub used: usize,
    pub count: usize,
}

// A line taken from a piece, and what it prints; `None` where no line ends or what it prints has no
// space: the line goes on to `used`.
#[derive(Clone, Copy)]
struct Step {
    script: Script,
    used: usize,
    printed: Option<Printed>,
}

// The start of a script: no bench is open.
pub fn start() -> Script
    ensures { result ≡ started }
{
    Script {
        session: Session { bench: None },
        pending: Pending {
            bytes: [0; PENDING],
            length: 0,
        },
    }
}

// The line that has begun ends.
fn ended(session: Session, pending: Pending) -> LineResult
    ensures { result ≡ result_of (session_line session (line_in pending)) }
{
    script_interpreter::line(session, shown(&pending))
}

// The first line of a piece.
fn next_line(script: Script, piece: &[u8], space: usize) -> Step
    ensures { Steps space script piece.now result }
{
    let session = script.session;
    let end = line_end(piece);
    let pending = keep(script.pending, &piece[..end]);
    let goes_on = Step {
        script: Script { session, pending },
        used: end,
        printed: None,
    };
    if end == piece.len() {
        return goes_on;
    }
    let result = ended(session, pending);
    if space < result.printed.length {
        return goes_on;
    }
    let mut empty = pending;
    empty.length = 0;
    Step {
        script: Script {
            session: result.session,
            pending: empty,
        },
        used: end + 1,
        printed: Some(result.printed),
    }
}

// Puts a printed line at `at` of the output.
fn put(printed: Printed, out: &mut [u8], at: usize)
    requires { (printed.length ≤ room) × (at + printed.length ≤ length out.old) }
    ensures { out.new ≡ paste out.old at printed.bytes printed.length }
{
    out[at..at + printed.length].copy_from_slice(&printed.bytes[..printed.length]);
}

// Takes a piece of the input, and prints the answers to the lines that end in it at the start of
// the output. It stops before a line feed whose answer has no space left: the caller hands in what
// was not used once more. An output of `script_answers::ROOM` bytes has space for any line.
pub fn answer(script: Script, piece: &[u8], out: &mut [u8]) -> Answered
    ensures { (result ≡ answered_as (on_piece (length out.old) script piece.now)) × (out.new ≡ written_to out.old (on_piece (length out.old) script piece.now).output) }
{
    let mut now = script;
    let mut used: usize = 0;
    let mut count: usize = 0;
    // A turn takes as many bytes as its line has, so no `for` goes over them.
    while used < piece.len() {
        let step = next_line(now, &piece[used..], out.len() - count);
        now = step.script;
        used += step.used;
        let Some(printed) = step.printed else {
            break;
        };
        put(printed, out, count);
        count += printed.length;
    }
    Answered {
        script: now,
        used,
        count,
    }
}

// The end of the input: the last line may lack its line feed.
#[tactic(auto, unfolding(crate::specs::Pieces::at_end))]
pub fn finish(script: Script) -> Printed
    ensures { result ≡ printed_as (at_end script) }
{
    let pending = script.pending;
    if pending.length == 0 {
        return script_answers::nothing();
    }
    ended(script.session, pending).printed
}
