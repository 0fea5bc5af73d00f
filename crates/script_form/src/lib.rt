// Forms: how numbers are written in a line and how a form with marks is filled (specs/), and a form read from an offset of a line on.
#![tactic(auto)]

ghost use Rattle.std.specs.Prelude.{◌≡◌, ◌≤◌};
ghost use Rattle.script_form.specs.Form.{block_digits};
ghost use Rattle.script_form.specs.scanner.Scan.{push, begin, advance, scan, whole};

use crate::pieces::{Step, piece_in, rest_of};

mod digits;
mod pieces;

// How many digits the blocks of a variant have; KATAN32's where there is no such variant.
pub fn block_digits(variant: u8) -> usize
    ensures { result ≡ block_digits variant }
{
    katan_variants::width_of(variant) / 4
}

// How many words a form's values have at most.
pub const WORDS: usize = 8;

// The values of a form's fields from left to right: a word each, a key two, the upper first.
// No heap is a rule of the project: a fixed buffer, and how much of it is used.
#[derive(Clone, Copy)]
pub struct Values {
    pub words: [u64; WORDS],
    pub count: usize,
}

impl Values {
    // One word more; where there is no room for it, it is lost.
    #[tactic(auto, unfolding(crate::specs::scanner::Scan::push))]
    fn with(self, word: u64) -> Values
        ensures { result ≡ push self word }
    {
        let mut values = self;
        if values.count < WORDS {
            values.words[values.count] = word;
            values.count += 1;
        }
        values
    }
}

// What a form has found so far, and the offset that is read next.
#[derive(Clone, Copy)]
pub struct Fields {
    pub values: Values,
    pub offset: usize,
}

// Nothing is found yet.
fn begun(offset: usize) -> Fields
    ensures { result ≡ begin offset }
{
    let values = Values {
        words: [0; WORDS],
        count: 0,
    };
    Fields { values, offset }
}

// One byte of a form further; where it is not met, what had been found.
#[tactic(auto, unfolding(crate::specs::scanner::Scan::advance))]
fn advanced(line: &[u8], p: u8, digits: usize, found: Fields) -> Result<Fields, Fields>
    requires { digits ≤ 16 }
    ensures { result ≡ advance digits line.now p found }
{
    let Fields { values, offset } = found;
    let next = match piece_in(rest_of(line, offset), p, digits).ok_or(found)? {
        Step::Letter => Fields {
            values,
            offset: offset + 1,
        },
        Step::Field { value, length } => Fields {
            values: values.with(value),
            offset: offset + length,
        },
        Step::Words { high, low, length } => Fields {
            values: values.with(high).with(low),
            offset: offset + length,
        },
    };
    Ok(next)
}

// A form, from an offset on, where a block has a variant's digits. Where it is not met, what had been found, and the offset of what was not met.
pub fn fields_at(form: &[u8], line: &[u8], offset: usize, variant: u8) -> Result<Fields, Fields>
    ensures { result ≡ scan (block_digits variant) line.now (begin offset) form.now }
{
    let digits = block_digits(variant);
    let mut found = begun(offset);
    for p in form {
        found = advanced(line, *p, digits, found)?;
    }
    Ok(found)
}

// A form that goes from an offset to the end of the line. Where the line goes on, what has been found.
#[tactic(auto, unfolding(crate::specs::scanner::Scan::whole))]
pub fn whole_at(form: &[u8], line: &[u8], offset: usize, variant: u8) -> Result<Fields, Fields>
    ensures { result ≡ whole (block_digits variant) line.now offset form.now }
{
    let found = fields_at(form, line, offset, variant)?;
    if line.len() <= found.offset {
        Ok(found)
    } else {
        Err(found)
    }
}
