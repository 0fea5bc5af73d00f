// The reading of a line: its first bytes choose the form, and the rest is read by it. Of the forms only a load's has a block: the others are read
// with no variant, 0. A form's fields are within their types, as proved: so as loses nothing, where try_from would leave a case that is not met.
ghost use Rattle.std.specs.Prelude.{◌≡◌};
ghost use Rattle.script_command.specs.scanner.Reading.{bench_in, read_in, record_in, command_in};

use crate::reader::Reader;
use crate::{Command, LINE_LENGTH};
use script_form::{fields_at, whole_at};

#[tactic(auto, unfolding(crate::specs::scanner::Reading::bench_in))]
fn bench_in(line: &[u8]) -> Option<Command>
    ensures { result ≡ bench_in line.now }
{
    let found = whole_at(b"(bench %)", line, 0, 0).ok()?;
    let [variant, ..] = found.values.words;
    Some(Command::Bench {
        variant: variant as u8,
    })
}

#[tactic(auto, unfolding(crate::specs::scanner::Reading::read_in))]
fn read_in(line: &[u8]) -> Option<Command>
    ensures { result ≡ read_in line.now }
{
    let found = whole_at(b"(read %)", line, 0, 0).ok()?;
    let [lane, ..] = found.values.words;
    Some(Command::Read { lane: lane as u8 })
}

#[tactic(auto, unfolding(crate::specs::scanner::Reading::record_in))]
fn record_in(line: &[u8], variant: u8) -> Option<Command>
    ensures { result ≡ record_in variant line.now }
{
    let front = fields_at(b"(# (", line, 0, 0).ok()?;
    let [number, ..] = front.values.words;
    let rest = Reader {
        line,
        offset: front.offset,
    };
    rest.record_as(number as u32, variant)
}

// The letter after the first parenthesis chooses: b; on an open bench also r, or a record's number.
#[tactic(auto, unfolding(crate::specs::scanner::Reading::command_in))]
pub fn command_in(variant: u8, line: &[u8]) -> Option<Command>
    ensures { result ≡ command_in variant line.now }
{
    if LINE_LENGTH < line.len() {
        return None;
    }
    let inside = Reader { line, offset: 1 };
    let letter = inside.letter();
    if letter == b'b' {
        return bench_in(line);
    }
    let _row = katan_variants::row_of(variant).ok()?;
    if letter == b'r' {
        return read_in(line);
    }
    record_in(line, variant)
}
