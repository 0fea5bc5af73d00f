// All rounds of the lanes of a word at once: bit j of each word belongs to lane j, and word i has bit i of each lane's block.
#![tactic(auto)]

ghost use Rattle.std.specs.Prelude.{◌≡◌, ℕ, ◌+◌, ◌-◌, ◌*◌, ◌/◌, ◌^◌, ◌<◌, ◌≤◌, get_or, length};
ghost use Rattle.katan.specs.Counter.{rounds};
ghost use Rattle.katan.specs.Sizes.{word_bits};
ghost use Rattle.lanes_rounds.specs.Words.{width_row, all_rounds_run, all_rounds_undone};
ghost use Rattle.lanes_rounds.specs.inner.Buffers.{Room, Placed, Carried};

use crate::constants::{
    FIRST_32, FIRST_48, FIRST_64, SECOND_32, SECOND_48, SECOND_64, TURN_32, TURN_48, TURN_64,
};
use crate::rounds::{Back, Forth, Way, ir_words, row, run};
use katan::{ROUND_KEYS, RoundPosition, WORD_BITS};
use katan_variants::{Bits32, Bits48, Bits64, Width};

mod constants;
mod rounds;

// Copies words, the last first.
fn put_reversed(words: &[u64], out: &mut [u64])
    requires { length out.old ≡ length words.now }
    ensures { (i : ℕ) → i < length words.now → get_or out.new i 0 ≡ get_or words.now (length words.now - 1 - i) 0 }
{
    // In one pass by a loop: of copy_from_slice between two lent slices LLVM makes memmove, which the archive for C does not take.
    for (i, word) in out.iter_mut().enumerate() {
        *word = words[words.len() - 1 - i];
    }
}

// Places the words of the blocks' bits as the registers at a position.
fn place<W: Width>(words: &[u64; WORD_BITS], a: &mut [u64], b: &mut [u64], at: RoundPosition)
    requires { Room W.Width.row a.old b.old × (at.0 ≤ rounds) }
    ensures room { Room W.Width.row a.new b.new }
    ensures placed { Placed W.Width.row (W.Width.row.clocks * at.0) words.now a.new b.new }
{
    let v = row::<W>();
    let t = katan_variants::first_clock(v, at).0;
    put_reversed(&words[..v.len2], &mut b[t..t + v.len2]);
    put_reversed(&words[v.len2..v.n], &mut a[t..t + v.len1]);
}

// The words of the blocks' bits that stand as the registers at a position, and zeros above them.
fn words_at<W: Width>(a: &[u64], b: &[u64], at: RoundPosition) -> [u64; WORD_BITS]
    requires { Room W.Width.row a.now b.now × (at.0 ≤ rounds) }
    ensures placed { Placed W.Width.row (W.Width.row.clocks * at.0) result a.now b.now }
    ensures by_index { (i : ℕ) → W.Width.row.n ≤ i → get_or result i 0 ≡ 0 }
{
    let v = row::<W>();
    let t = katan_variants::first_clock(v, at).0;
    let mut words = [0u64; WORD_BITS];
    put_reversed(&b[t..t + v.len2], &mut words[..v.len2]);
    put_reversed(&a[t..t + v.len1], &mut words[v.len2..v.n]);
    words
}

// All rounds at one width, in buffers of FIRST and SECOND words. The row and TURN are constants, so that the loops are unrolled where the
// buffers are known to be two.
fn all_rounds<D: Way, W: Width, const TURN: u8, const FIRST: usize, const SECOND: usize>(
    keys: &[u64; ROUND_KEYS],
    words: &[u64; WORD_BITS],
) -> [u64; WORD_BITS]
    requires turns { (1 ≤ TURN) × (TURN * (rounds / TURN) ≡ rounds) }
    requires room { (W.Width.row.clocks * rounds + W.Width.row.len1 ≤ FIRST) × (W.Width.row.clocks * rounds + W.Width.row.len2 ≤ SECOND) }
    requires fits { (FIRST < 2 ^ 16) × (SECOND < 2 ^ 16) }
    ensures { Carried D.made D.FROM D.TO W.Width.row keys.now words.now result }
{
    let irs = ir_words();
    let mut a = [0u64; FIRST];
    let mut b = [0u64; SECOND];
    place::<W>(words, &mut a, &mut b, RoundPosition(D::FROM));
    run::<D, W, TURN>(&mut a, &mut b, &irs, keys);
    words_at::<W>(&a, &b, RoundPosition(D::TO))
}

// All rounds for blocks of n bits: 32, 48, and 64 for any other number. n, keys and words are the arguments of encrypted and decrypted.
fn at_width<D: Way>(
    n: usize,
    keys: &[u64; ROUND_KEYS],
    words: &[u64; WORD_BITS],
) -> [u64; WORD_BITS]
    ensures { Carried D.made D.FROM D.TO (width_row n) keys.now words.now result }
{
    match n {
        32 => all_rounds::<D, Bits32, TURN_32, FIRST_32, SECOND_32>(keys, words),
        48 => all_rounds::<D, Bits48, TURN_48, FIRST_48, SECOND_48>(keys, words),
        _ => all_rounds::<D, Bits64, TURN_64, FIRST_64, SECOND_64>(keys, words),
    }
}

// All rounds forward, for blocks of n bits: 32, 48, and 64 for any other number. This and `decrypted` are the two ways of at_width, as
// lanes calls them.
pub fn encrypted(n: usize, keys: &[u64; ROUND_KEYS], words: &[u64; WORD_BITS]) -> [u64; WORD_BITS]
    ensures { result ≡ all_rounds_run n keys.now words.now }
{
    at_width::<Forth>(n, keys, words)
}

// All rounds undone, for the same widths.
pub fn decrypted(n: usize, keys: &[u64; ROUND_KEYS], words: &[u64; WORD_BITS]) -> [u64; WORD_BITS]
    ensures { result ≡ all_rounds_undone n keys.now words.now }
{
    at_width::<Back>(n, keys, words)
}
