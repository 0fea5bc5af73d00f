// What a byte of a form finds at the front of a text.
ghost use Rattle.std.specs.Prelude.{◌≡◌, ◌≤◌, drop};
ghost use Rattle.script_form.specs.Form.{piece_of};
ghost use Rattle.script_form.specs.scanner.Scan.{decimal_in, digits_in, letter_in, piece_in};

use crate::digits::{run_in, word_in};

// What a piece of a form finds: its own byte, or a value (a key's two words) and how many bytes it takes.
#[derive(Clone, Copy)]
pub enum Step {
    Letter,
    Field { value: u64, length: usize },
    Words { high: u64, low: u64, length: usize },
}

// The text from an offset on; nothing past its end.
pub fn rest_of(text: &[u8], offset: usize) -> &[u8]
    ensures { result.now ≡ drop offset text.now }
{
    &text[text.len().min(offset)..]
}

// A decimal without leading zeros, up to `max`.
#[tactic(auto, using(crate::proofs::Fronts::decimal_front))]
fn decimal_in(text: &[u8], max: u64) -> Option<Step>
    ensures { result ≡ decimal_in max text.now }
{
    let first = *text.first()?;
    let run = run_in(text, 10, 10);
    if run.count == 0 || max < run.value {
        return None;
    }
    if run.count != 1 && first == b'0' {
        return None;
    }
    Some(Step::Field {
        value: run.value,
        length: run.count,
    })
}

// `count` hexadecimal digits.
#[tactic(auto, using(crate::proofs::Fronts::hex_front))]
fn hex_in(text: &[u8], count: usize) -> Option<Step>
    requires { count ≤ 16 }
    ensures { result ≡ digits_in count text.now }
{
    let value = word_in(text, count)?;
    Some(Step::Field {
        value,
        length: count,
    })
}

// The 20 hexadecimal digits of a key: the upper 4, and the lower 16.
#[tactic(auto, using(crate::proofs::Fronts::key_front))]
fn key_in(text: &[u8]) -> Option<Step>
    ensures { result ≡ digits_in 20 text.now }
{
    let high = word_in(text, 4)?;
    let low = word_in(rest_of(text, 4), 16)?;
    Some(Step::Words {
        high,
        low,
        length: 20,
    })
}

// The byte `p`.
#[tactic(auto, using(crate::proofs::Fronts::letter_front))]
fn letter_in(text: &[u8], p: u8) -> Option<Step>
    ensures { result ≡ letter_in p text.now }
{
    if *text.first()? == p {
        Some(Step::Letter)
    } else {
        None
    }
}

// What the byte `p` of a form asks, where a block has `digits` digits.
pub fn piece_in(text: &[u8], p: u8, digits: usize) -> Option<Step>
    requires { digits ≤ 16 }
    ensures { result ≡ piece_in (piece_of digits p) p text.now }
{
    match p {
        b'#' => decimal_in(text, 4294967295),
        b'%' => decimal_in(text, 255),
        b'&' => key_in(text),
        b'$' => hex_in(text, 16),
        b'*' => hex_in(text, digits),
        _ => letter_in(text, p),
    }
}
