// The rounds of all lanes at once. Nothing is shifted: two buffers hold the words that entered L1 and L2, so that a clock is two
// formulas and two stores. A buffer's index is a clock number; a round's position becomes one through `first_clock` alone.
ghost use Rattle.std.specs.Prelude.{◌≡◌, ◌+◌, ◌-◌, ◌*◌, ◌/◌, ◌<◌, ◌≤◌, ℕ, List, get_or, length, set};
ghost use Rattle.std.proofs.Common.{lit≤};
ghost use Rattle.katan.specs.Bit.{xor, and};
ghost use Rattle.katan.specs.Counter.{counter, ir_of, rounds};
ghost use Rattle.katan.specs.Clock.{fa, fb, fa_rest, fb_rest};
ghost use Rattle.katan.specs.declared.Row.{Row};
ghost use Rattle.katan.specs.inner.Within.{Entries};
ghost use Rattle.lanes_rounds.specs.inner.Buffers.{tapped, Told, Room, spread, word_input, Forward, Backward, forward_none, backward_none};

use crate::constants::IR_WORDS;
use katan::{ClockNumber, ROUND_COUNT, ROUND_KEYS, ROUNDS, RoundInput, RoundPosition, Row};
use katan_variants::Width;

pub fn ir_words() -> [u64; ROUND_COUNT]
    ensures { Entries (λ i. spread (ir_of (counter i))) rounds result }
{
    IR_WORDS
}

// The row of a width, with what holds of it.
pub fn row<W: Width>() -> Row
    ensures { Told W.Width.row result }
{
    W::row()
}

// Bit i of the register whose newest word stands at p. l and p stay two: a struct of both would hold a slice that clock_at writes.
fn tap(l: &[u64], p: usize, i: usize) -> u64
    requires { (i ≤ p) × (p < length l.now) }
    ensures { result ≡ tapped l.now p i }
{
    l[p - i]
}

// fa and fb are two formulas, of five taps and IR and of six.
fn fa_rest<W: Width>(l: &[u64], p: usize, u: RoundInput) -> u64
    requires { (W.Width.row.x1 ≤ p) × (p < length l.now) }
    ensures { result ≡ fa_rest xor and W.Width.row (tapped l.now p) u.ir u.ka }
{
    let v = row::<W>();
    tap(l, p, v.x2) ^ (tap(l, p, v.x3) & tap(l, p, v.x4)) ^ (tap(l, p, v.x5) & u.ir) ^ u.ka
}

fn fb_rest<W: Width>(l: &[u64], p: usize, u: RoundInput) -> u64
    requires { (W.Width.row.y1 ≤ p) × (p < length l.now) }
    ensures { result ≡ fb_rest xor and W.Width.row (tapped l.now p) u.kb }
{
    let v = row::<W>();
    tap(l, p, v.y2)
        ^ (tap(l, p, v.y3) & tap(l, p, v.y4))
        ^ (tap(l, p, v.y5) & tap(l, p, v.y6))
        ^ u.kb
}

fn clock_at<W: Width>(a: &mut [u64], b: &mut [u64], at: ClockNumber, u: RoundInput)
    requires { (at.0 + W.Width.row.len1 < length a.old) × (at.0 + W.Width.row.len2 < length b.old) }
    ensures a_after { a.new ≡ set a.old (at.0 + W.Width.row.len1) (fb xor and W.Width.row (tapped b.old (at.0 + W.Width.row.y1)) u.kb) }
    ensures b_after { b.new ≡ set b.old (at.0 + W.Width.row.len2) (fa xor and W.Width.row (tapped a.old (at.0 + W.Width.row.x1)) u.ir u.ka) }
{
    let v = row::<W>();
    let t = at.0;
    let p = t + v.x1;
    let q = t + v.y1;
    let fa = a[t] ^ fa_rest::<W>(a, p, u);
    let fb = b[t] ^ fb_rest::<W>(b, q, u);
    a[p + 1] = fb;
    b[q + 1] = fa;
}

// The way back: what had left the registers at a clock stands at its number again, by a formula of its own.
fn unclock_at<W: Width>(a: &mut [u64], b: &mut [u64], at: ClockNumber, u: RoundInput)
    requires { (at.0 + W.Width.row.len1 < length a.old) × (at.0 + W.Width.row.len2 < length b.old) }
    ensures a_after { a.new ≡ set a.old at.0 (xor (get_or b.old (at.0 + W.Width.row.len2) 0) (fa_rest xor and W.Width.row (tapped a.old (at.0 + W.Width.row.x1)) u.ir u.ka)) }
    ensures b_after { b.new ≡ set b.old at.0 (xor (get_or a.old (at.0 + W.Width.row.len1) 0) (fb_rest xor and W.Width.row (tapped b.old (at.0 + W.Width.row.y1)) u.kb)) }
{
    let v = row::<W>();
    let t = at.0;
    let p = t + v.x1;
    let q = t + v.y1;
    let left1 = b[q + 1] ^ fa_rest::<W>(a, p, u);
    let left2 = a[p + 1] ^ fb_rest::<W>(b, q, u);
    a[t] = left1;
    b[t] = left2;
}

// What the round at a position takes.
fn input_at(irs: &[u64; ROUND_COUNT], keys: &[u64; ROUND_KEYS], at: RoundPosition) -> RoundInput
    requires { at.0 < rounds }
    ensures { result ≡ word_input irs.now keys.now at.0 }
{
    let r = usize::from(at.0);
    let i = 2 * r;
    RoundInput {
        ir: irs[r],
        ka: keys[i],
        kb: keys[i + 1],
    }
}

// A way through the rounds: the positions it leads from and to, and one round more.
pub trait Way {
    // With so many rounds done, a and b became a' and b'.
    ghost made: { Row → (irs keys : List ℕ) → (done : ℕ) → (a b a' b' : List ℕ) → Type 0 };

    ghost FROM: { ℕ };

    ghost TO: { ℕ };

    const FROM: u8;

    const TO: u8;

    fn round<W: Width>(
        a: &mut [u64],
        b: &mut [u64],
        irs: &[u64; ROUND_COUNT],
        keys: &[u64; ROUND_KEYS],
        done: u8,
    )
        requires { Room W.Width.row a.old b.old × (done < rounds) }
        ensures room { Room W.Width.row a.new b.new }
        ensures more { (a₀ b₀ : List ℕ) → made W.Width.row irs.now keys.now done a₀ b₀ a.old b.old → made W.Width.row irs.now keys.now (done + 1) a₀ b₀ a.new b.new };

    ghost positions: { (FROM ≤ rounds) × (TO ≤ rounds) };

    ghost none: { (v : Row) (irs keys a b : List ℕ) → Room v a b → made v irs keys 0 a b a b };
}

// The rounds made, the first first.
pub struct Forth;

impl Way for Forth {
    ghost made = { λ v irs keys done a b a' b'. Forward v irs keys 0 done a b a' b' };

    ghost FROM = { 0 };

    ghost TO = { rounds };

    const FROM: u8 = 0;

    const TO: u8 = ROUNDS;

    fn round<W: Width>(
        a: &mut [u64],
        b: &mut [u64],
        irs: &[u64; ROUND_COUNT],
        keys: &[u64; ROUND_KEYS],
        done: u8,
    ) {
        let v = row::<W>();
        let at = RoundPosition(done);
        let first = katan_variants::first_clock(v, at).0;
        let u = input_at(irs, keys, at);
        for i in 0..v.clocks as usize {
            clock_at::<W>(a, b, ClockNumber(first + i), u);
        }
    }

    ghost positions = { (lit≤ tt, lit≤ tt) };

    ghost none = { λ v irs keys a b m. forward_none v irs keys a b 0 m };
}

// The rounds undone, the last first, and its last clock first. Its loop goes down over unclock_at: that is all the way there is.
pub struct Back;

impl Way for Back {
    ghost made = { λ v irs keys done a b a' b'. Backward v irs keys (rounds - done) rounds a b a' b' };

    ghost FROM = { rounds };

    ghost TO = { 0 };

    const FROM: u8 = ROUNDS;

    const TO: u8 = 0;

    fn round<W: Width>(
        a: &mut [u64],
        b: &mut [u64],
        irs: &[u64; ROUND_COUNT],
        keys: &[u64; ROUND_KEYS],
        done: u8,
    ) {
        let v = row::<W>();
        let at = RoundPosition(ROUNDS - 1 - done);
        let first = katan_variants::first_clock(v, at).0;
        let u = input_at(irs, keys, at);
        for i in (0..v.clocks as usize).rev() {
            unclock_at::<W>(a, b, ClockNumber(first + i), u);
        }
    }

    ghost positions = { (lit≤ tt, lit≤ tt) };

    ghost none = { λ v irs keys a b m. backward_none v irs keys a b rounds m };
}

// All rounds, in turns of TURN. The buffers stay two parameters, so that LLVM knows them to be apart; irs and keys stay two, since one is
// ours and the other lent by the caller.
pub fn run<D: Way, W: Width, const TURN: u8>(
    a: &mut [u64],
    b: &mut [u64],
    irs: &[u64; ROUND_COUNT],
    keys: &[u64; ROUND_KEYS],
)
    requires { Room W.Width.row a.old b.old × (1 ≤ TURN) × (TURN * (rounds / TURN) ≡ rounds) }
    ensures { D.made W.Width.row irs.now keys.now rounds a.old b.old a.new b.new }
{
    for turn in 0..ROUNDS / TURN {
        for i in 0..TURN {
            D::round::<W>(a, b, irs, keys, TURN * turn + i);
        }
    }
}
