// The bytes of an answer.
ghost use Rattle.std.specs.Prelude.{◌≡◌, ◌+◌, ◌≤◌, length};
ghost use Rattle.katan.specs.Checks.{number_of, refused};
ghost use Rattle.bench.specs.Bench.{reply_answer, reading_answer};
ghost use Rattle.bench_replay.specs.Encoding.{answer_length, answer_bytes};
ghost use Rattle.bench_replay.specs.inner.Steps.{byte_of, field_bytes, overwritten};

use crate::ANSWER_LENGTH;
use bench::{Reading, Reply};
use katan::Refusal;

// The kinds of an answer.
#[derive(Clone, Copy, Debug, PartialEq, Eq)]
pub enum Kind {
    Done = 1,
    Again = 2,
    At = 3,
    Refused = 4,
}

impl From<Kind> for u8 {
    ghost from_gives = { λ kind byte. byte ≡ byte_of kind };

    fn from(kind: Kind) -> u8 {
        kind as u8
    }
}

// The kind, the number of 4 bytes and the number of 8.
#[derive(Clone, Copy)]
pub struct Fields {
    pub kind: Kind,
    pub first: u32,
    pub second: u64,
}

fn refused_fields(refusal: Refusal) -> Fields
    ensures { field_bytes result ≡ answer_bytes (refused (number_of refusal)) }
{
    Fields {
        kind: Kind::Refused,
        first: u32::from(u8::from(refusal)),
        second: 0,
    }
}

pub fn reply_fields(reply: Result<Reply, Refusal>) -> Fields
    ensures { field_bytes result ≡ answer_bytes (reply_answer reply) }
{
    match reply {
        Ok(Reply::Done { number, total }) => Fields {
            kind: Kind::Done,
            first: number,
            second: u64::from(total),
        },
        Ok(Reply::Again { number, total }) => Fields {
            kind: Kind::Again,
            first: number,
            second: u64::from(total),
        },
        Err(refusal) => refused_fields(refusal),
    }
}

pub fn read_fields(answer: Result<Reading, Refusal>) -> Fields
    ensures { field_bytes result ≡ answer_bytes (reading_answer answer) }
{
    match answer {
        Ok(reading) => Fields {
            kind: Kind::At,
            first: u32::from(reading.position.0),
            second: reading.registers,
        },
        Err(refusal) => refused_fields(refusal),
    }
}

// Writes an answer over the bytes from a place on.
pub fn write(answer: Fields, at: usize, out: &mut [u8])
    requires { at + answer_length ≤ length out.old }
    ensures { out.new ≡ overwritten out.old at (field_bytes answer) }
{
    out[at] = u8::from(answer.kind);
    katan_numbers::put_number(u64::from(answer.first), &mut out[at + 1..at + 5]);
    katan_numbers::put_number(answer.second, &mut out[at + 5..at + ANSWER_LENGTH]);
}
