// The calls in a list of bytes.
ghost use Rattle.std.specs.Prelude.{◌≡◌, ◌≤◌, false, length, MatchOption};
ghost use Rattle.bench_replay.specs.Encoding.{head_length, call_number, is_call, fits as fits_in};
ghost use Rattle.bench_replay.specs.inner.Steps.{call_view, IsFirst};

use crate::{ANSWER_LENGTH, HEAD_LENGTH};

// A record that arrives, of kind 1, or the number of a lane that is read, of kind 2.
#[derive(Clone, Copy)]
pub enum Call<'a> {
    Arrival(&'a [u8]),
    Read(usize),
}

// The length of an arrival's record, or the lane of a read; `as`, since no `From` leads from u64 to usize.
fn number_of(call: &[u8]) -> usize
    requires { head_length ≤ length call.now }
    ensures { result ≡ call_number call.now }
{
    katan_numbers::word_of(&call[1..HEAD_LENGTH]) as usize
}

// The first call of the bytes and the bytes after it, or none where no whole call comes first.
pub fn next_call(bytes: &[u8]) -> Option<(Call<'_>, &[u8])>
    ensures { MatchOption result (is_call bytes.now ≡ false) (λ p. IsFirst bytes.now (call_view p.0) p.1.now) }
{
    let (_, rest) = bytes.split_at_checked(HEAD_LENGTH)?;
    let number = number_of(bytes);
    match bytes[0] {
        1 => {
            let (sent, after) = rest.split_at_checked(number)?;
            Some((Call::Arrival(sent), after))
        }
        2 => Some((Call::Read(number), rest)),
        _ => None,
    }
}

// Whether the bytes are whole calls to their end, and there is room for exactly their answers.
pub fn fits(bytes: &[u8], room: usize) -> bool
    ensures { result ≡ fits_in bytes.now room }
{
    let mut rest = bytes;
    let mut left = room;
    while let Some((_, after)) = next_call(rest) {
        if left < ANSWER_LENGTH {
            return false;
        }
        left -= ANSWER_LENGTH;
        rest = after;
    }
    rest.is_empty() && left == 0
}
