// The interpreter: a line's command on the open bench, and the line that it prints.
#![tactic(auto)]

ghost use Rattle.std.specs.Prelude.{◌≡◌};
ghost use Rattle.bench.specs.Calls.{reading};
ghost use Rattle.script_interpreter.specs.Interpreter.{opens, calls, sends, obeys};
ghost use Rattle.script_interpreter.specs.Session.{open_bench, variant_of, session_transition, session_line, result_of};

use crate::records::{load_record, move_record};
use bench::{Bench, Link};
use bench_record::{Kind, LENGTH};
use katan::Refusal;
use script_answers::Printed;
use script_command::Command;

mod records;

// An open bench and its link.
#[derive(Clone, Copy)]
pub struct OpenBench {
    pub bench: Bench,
    pub link: Link,
}

// The open bench, if one is.
#[derive(Clone, Copy)]
pub struct Session {
    pub bench: Option<OpenBench>,
}

// What a line leaves, and prints.
#[derive(Clone, Copy)]
pub struct LineResult {
    pub session: Session,
    pub printed: Printed,
}

// The open bench's variant; 0 where none is open, as command_answer of script_command/specs has it.
fn variant_of(session: Session) -> u8
    ensures { result ≡ variant_of session }
{
    match session.bench {
        Some(open) => open.bench.variant,
        None => 0,
    }
}

// A bench line.
fn opened(session: Session, variant: u8) -> LineResult
    ensures { result ≡ result_of (opens variant_of open_bench session_transition session variant) }
{
    let opening = bench_fresh::open(variant);
    match opening.answer {
        Ok(()) => {
            let open = OpenBench {
                bench: opening.bench,
                link: opening.link,
            };
            LineResult {
                session: Session { bench: Some(open) },
                printed: script_answers::opened_line(variant),
            }
        }
        Err(reason) => LineResult {
            session,
            printed: script_answers::refused_line(reason),
        },
    }
}

// A read line.
#[tactic(auto, unfolding(bench::specs::Bench::bench_transition))]
fn read(session: Session, lane: u8) -> LineResult
    ensures { result ≡ result_of (calls variant_of open_bench session_transition session lane (reading lane)) }
{
    let answer = match session.bench {
        Some(open) => bench_stepping::read(open.bench, usize::from(lane)),
        None => Err(Refusal::BadVariant),
    };
    LineResult {
        session,
        printed: script_answers::reading_line(variant_of(session), lane, answer),
    }
}

// A record's arrival.
#[tactic(auto, using(script_answers::proofs::Lines::reply_line), unfolding(bench::specs::Bench::bench_transition))]
fn sent(session: Session, bytes: [u8; LENGTH]) -> LineResult
    ensures { result ≡ result_of (sends variant_of open_bench session_transition session bytes) }
{
    let Some(open) = session.bench else {
        return LineResult {
            session,
            printed: script_answers::refused_line(Refusal::BadVariant),
        };
    };
    let after = bench_stepping::arrive_once(open.bench, open.link, &bytes);
    let open = OpenBench {
        bench: after.bench,
        link: after.link,
    };
    LineResult {
        session: Session { bench: Some(open) },
        printed: script_answers::reply_line(after.reply),
    }
}

// What a command does on the session.
#[tactic(auto, unfolding(crate::specs::Interpreter::obeys))]
fn run_command(session: Session, command: Command) -> LineResult
    ensures { result ≡ result_of (obeys variant_of open_bench session_transition session command) }
{
    match command {
        Command::Bench { variant } => opened(session, variant),
        Command::Read { lane } => read(session, lane),
        Command::Load {
            number,
            lane,
            position,
            key,
            block,
        } => { sent(session, load_record(number, lane, position, key, block)) }
        Command::Forward {
            number,
            mask,
            count,
        } => { sent(session, move_record(Kind::Forward, number, mask, count)) }
        Command::Back {
            number,
            mask,
            count,
        } => { sent(session, move_record(Kind::Back, number, mask, count)) }
        Command::Clear { number, mask } => sent(session, move_record(Kind::Clear, number, mask, 0)),
    }
}

// A line without its line feed.
#[tactic(auto, unfolding(crate::specs::Interpreter::takes_as, crate::specs::Interpreter::on_line))]
pub fn line(session: Session, line: &[u8]) -> LineResult
    ensures { result ≡ result_of (session_line session line.now) }
{
    match script_command::command_in(variant_of(session), line) {
        Some(command) => run_command(session, command),
        None => LineResult {
            session,
            printed: script_answers::refused_line(Refusal::BadForm),
        },
    }
}
