// A line that has begun, and the part of a piece that goes on with it.
ghost use Rattle.std.specs.Prelude.{◌≡◌, ◌==◌, length, position};
ghost use Rattle.std.specs.Option.{unwrap_or};
ghost use Rattle.script.specs.Pieces.{line_in};
ghost use Rattle.script.specs.inner.Kept.{kept_all};

use crate::{PENDING, Pending};

fn first_feed(piece: &[u8]) -> Option<usize>
    ensures { result ≡ position (λ b. b == 10) piece.now }
{
    piece.iter().position(|b| *b == b'\n')
}

// How many bytes stand before the first line feed.
pub fn line_end(piece: &[u8]) -> usize
    ensures { result ≡ unwrap_or (position (λ b. b == 10) piece.now) (length piece.now) }
{
    first_feed(piece).unwrap_or(piece.len())
}

// What a line that has begun shows.
pub fn shown(pending: &Pending) -> &[u8]
    ensures { result.now ≡ line_in pending.now }
{
    &pending.bytes[..pending.length.min(PENDING)]
}

// The line goes on with these bytes, as far as there is room.
pub fn keep(pending: Pending, part: &[u8]) -> Pending
    ensures { result ≡ kept_all pending part.now }
{
    let mut bytes = pending.bytes;
    let start = pending.length.min(PENDING);
    let count = part.len().min(PENDING - start);
    bytes[start..start + count].copy_from_slice(&part[..count]);
    Pending {
        bytes,
        length: pending.length + count,
    }
}
