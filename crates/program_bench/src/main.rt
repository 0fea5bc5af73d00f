// The bench program: reads a script from standard input and prints one line for each of its lines.
// What cannot be read or written is said on standard error.
#![tactic(auto)]

ghost use Rattle.std.specs.Prelude.{◌≡◌, ◌≤◌, length};
ghost use Rattle.script.specs.Pieces.{on_bytes, all_taken, answered_as, written_to, piece_length, output_length};

use script::{Answered, OUTPUT, PIECE, Script};
use std::fmt;
use std::io::{Read, Write};

// What ends a run before its input does.
#[derive(Clone, Copy, Debug)]
enum Failure {
    Input,
    Output,
}

impl fmt::Display for Failure {
    fn fmt<W: fmt::Write>(&self, f: &mut fmt::Formatter<W>) -> fmt::Result {
        match self {
            Failure::Input => write!(f, "standard input could not be read"),
            Failure::Output => write!(f, "standard output could not be written"),
        }
    }
}

fn output() -> [u8; OUTPUT]
    ensures { output_length ≡ length result }
{
    [0; OUTPUT]
}

fn write(rt: &HostRuntime, lines: &[u8]) -> Result<(), Failure> {
    rt.stdout().write_all(lines).map_err(|_| Failure::Output)
}

// All of a piece: the output has room for every line that ends in it.
fn answer_all(script: Script, piece: &[u8], out: &mut [u8; OUTPUT]) -> Answered
    requires { length piece.now ≤ piece_length }
    ensures { (result ≡ answered_as (all_taken script piece.now)) × (out.new ≡ written_to out.old (on_bytes script piece.now).1) × (result.count ≤ length out.old) }
{
    script::answer(script, piece, out)
}

// Reads a piece and answers it, before the next read may wait: a driver waits for each answer.
// `None` is the end of the input.
fn turn(
    rt: &HostRuntime,
    script: Script,
    out: &mut [u8; OUTPUT],
) -> Result<Option<Script>, Failure> {
    let mut piece = [0; PIECE];
    let n = match rt.stdin().read(&mut piece) {
        Err(_) => return Err(Failure::Input),
        Ok(0) => return Ok(None),
        Ok(n) => n,
    };
    let answered = answer_all(script, &piece[..n], out);
    write(rt, &out[..answered.count])?;
    Ok(Some(answered.script))
}

// The turns are counted, so that the loop ends; they are more than any input has pieces.
fn run(rt: &HostRuntime, out: &mut [u8; OUTPUT]) -> Result<(), Failure> {
    let mut script = script::start();
    for _ in 0..u64::MAX {
        match turn(rt, script, out)? {
            Some(next) => script = next,
            None => break,
        }
    }
    let printed = script::finish(script);
    write(rt, &printed.bytes[..printed.length])
}

fn main(rt: HostRuntime) {
    let mut out = output();
    if let Err(failure) = run(&rt, &mut out) {
        // That this can fail too is left at that.
        let _ = eprintln!(rt; "katan-bench: {failure}");
    }
}
