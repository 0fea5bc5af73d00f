// The line that each answer prints.
#![tactic(auto)]

ghost use Rattle.std.specs.Prelude.{◌≡◌, [], ◌≤◌, length, replicate};
ghost use Rattle.katan.specs.Checks.{number_of, refused};
ghost use Rattle.bench.specs.Bench.{reply_answer, reading_answer};
ghost use Rattle.script_form.specs.Form.{fill};
ghost use Rattle.script_answers.specs.Printed.{opened_line, answer_line, room, printed_as};

use crate::form::write_form;
use bench::{Reading, Reply};
use katan::Refusal;

mod form;

// Room for any printed line.
pub const ROOM: usize = 64;

// A printed line with its line feed; zeros after it. No heap is a rule of the project: a fixed buffer, and how much of it is used.
#[derive(Clone, Copy)]
pub struct Printed {
    pub bytes: [u8; ROOM],
    pub length: usize,
}

// No line.
pub fn nothing() -> Printed
    ensures { result ≡ printed_as [] }
{
    Printed {
        bytes: [0; ROOM],
        length: 0,
    }
}

// A form with its values.
fn filled(form: &[u8], values: &[u64], digits: usize) -> Printed
    requires { length (fill digits form.now values.now) ≤ room }
    ensures { result ≡ printed_as (fill digits form.now values.now) }
{
    let mut bytes = [0; ROOM];
    let length = write_form(form, values, digits, &mut bytes);
    Printed { bytes, length }
}

// The answer to a bench line that is accepted.
pub fn opened_line(variant: u8) -> Printed
    ensures { result ≡ printed_as (opened_line variant) }
{
    filled(b"(bench %)\n", &[u64::from(variant)], 0)
}

pub fn refused_line(reason: Refusal) -> Printed
    ensures { result ≡ printed_as (answer_line 0 0 (refused (number_of reason))) }
{
    let number = u8::from(reason);
    filled(b"(refused %)\n", &[u64::from(number)], 0)
}

// The answer to a record.
pub fn reply_line(reply: Result<Reply, Refusal>) -> Printed
    ensures { result ≡ printed_as (answer_line 0 0 (reply_answer reply)) }
{
    match reply {
        Ok(Reply::Done { number, total }) => {
            filled(b"(done # #)\n", &[u64::from(number), u64::from(total)], 0)
        }
        Ok(Reply::Again { number, total }) => {
            filled(b"(again # #)\n", &[u64::from(number), u64::from(total)], 0)
        }
        Err(reason) => refused_line(reason),
    }
}

// The answer to a read of a lane on a bench of a variant.
pub fn reading_line(variant: u8, lane: u8, answer: Result<Reading, Refusal>) -> Printed
    ensures { result ≡ printed_as (answer_line variant lane (reading_answer answer)) }
{
    match answer {
        Ok(reading) => {
            let position = u64::from(reading.position.0);
            let digits = script_form::block_digits(variant);
            let values = [u64::from(lane), position, reading.registers];
            filled(b"(at % % *)\n", &values, digits)
        }
        Err(reason) => refused_line(reason),
    }
}
