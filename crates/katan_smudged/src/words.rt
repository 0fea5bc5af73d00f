// Bits that may be unknown, in two words: those known as 1, and those known as 0. Rounds over them, for any row of the variants' table:
// a clock is some operations on words, with the taps' bits lowest.
ghost use Rattle.std.specs.Prelude.{◌≡◌, ◌<◌, ◌%◌};
ghost use Rattle.katan.specs.Clock.{shift_in};
ghost use Rattle.katan_smudged.specs.inner.Words.{term as term_of, plus, settled as settled_of, times as times_of, from, fa_words, fb_words, enter as enter_of, entered_words, clock_words, clocks_words, following as following_of};

use katan_keys::Window;
use katan_sheet::{Known, KnownBits};
use katan_variants::Width;
use std::ops::BitXor;

// The same of each part.
pub fn each<T, U, F: Fn(T) -> U>(of: Known<T>, f: F) -> Known<U>
    requires { F.pre f of.ones × F.pre f of.zeros }
    ensures { F.post f of.ones result.ones × F.post f of.zeros result.zeros }
{
    Known {
        ones: f(of.ones),
        zeros: f(of.zeros),
    }
}

// A sum of bits: it is known where each of its terms is, and its value counts only there.
#[derive(Clone, Copy)]
struct Sum {
    known: u64,
    value: u64,
}

// L1 and L2.
#[derive(Clone, Copy)]
pub struct KnownRegisters {
    pub l1: KnownBits,
    pub l2: KnownBits,
}

// What all clocks of a round share: the lowest bit of each.
#[derive(Clone, Copy)]
pub struct KnownInput {
    pub ir: KnownBits,
    pub ka: KnownBits,
    pub kb: KnownBits,
}

// What a round finds its key bits in, a KATAN's window or a KTANTAN's key.
pub type KnownSource = Known<Window>;

fn term(a: KnownBits) -> Sum
    ensures { result ≡ term_of a }
{
    Sum {
        known: a.ones | a.zeros,
        value: a.ones,
    }
}

impl BitXor<Sum> for Sum {
    type Output = Sum;

    ghost can_bitxor = { λ a b. Unit {0} };

    ghost bitxor_gives = { λ a b r. r ≡ plus a b };

    fn bitxor(self, other: Sum) -> Sum {
        Sum {
            known: self.known & other.known,
            value: self.value ^ other.value,
        }
    }
}

fn settled(s: Sum) -> KnownBits
    ensures { result ≡ settled_of s }
{
    let ones = s.known & s.value;
    Known {
        ones,
        zeros: s.known ^ ones,
    }
}

// A product as a term: 0 times anything is 0, and any other product with an unknown is unknown.
fn product(a: KnownBits, b: KnownBits) -> Sum
    ensures { result ≡ term_of (times_of a b) }
{
    term(Known {
        ones: a.ones & b.ones,
        zeros: a.zeros | b.zeros,
    })
}

// Bit i, lowest, and those above it.
fn at(l: KnownBits, i: usize) -> KnownBits
    requires { i < 64 }
    ensures { result ≡ from l i }
{
    each(l, |x| x >> i)
}

// fa and fb, two formulas, at a width. Its row is a constant there, so its taps are compiled in.
fn fa_of<W: Width>(l: KnownBits, ir: KnownBits, ka: KnownBits) -> KnownBits
    ensures { result ≡ fa_words W.Width.row l ir ka }
{
    let row = W::row();
    let x34 = product(at(l, row.x3), at(l, row.x4));
    let x5 = product(at(l, row.x5), ir);
    settled(term(at(l, row.x1)) ^ (term(at(l, row.x2)) ^ x34 ^ x5 ^ term(ka)))
}

fn fb_of<W: Width>(l: KnownBits, kb: KnownBits) -> KnownBits
    ensures { result ≡ fb_words W.Width.row l kb }
{
    let row = W::row();
    let y34 = product(at(l, row.y3), at(l, row.y4));
    let y56 = product(at(l, row.y5), at(l, row.y6));
    settled(term(at(l, row.y1)) ^ (term(at(l, row.y2)) ^ y34 ^ y56 ^ term(kb)))
}

// The lowest bit of b enters a register of w bits: here of one word.
fn shift_in(w: usize, l: u64, b: u64) -> u64
    requires { w < 64 }
    ensures { result ≡ shift_in w l (b % 2) }
{
    ((l << 1) + b % 2) % (1 << w)
}

fn enter(w: usize, l: KnownBits, b: KnownBits) -> KnownBits
    requires { w < 64 }
    ensures { result ≡ enter_of w l b }
{
    Known {
        ones: shift_in(w, l.ones, b.ones),
        zeros: shift_in(w, l.zeros, b.zeros),
    }
}

// A clock: fb enters L1, fa enters L2.
fn clock<W: Width>(u: KnownInput, s: KnownRegisters) -> KnownRegisters
    ensures { result ≡ clock_words W.Width.row u s }
{
    let row = W::row();
    KnownRegisters {
        l1: enter(row.len1, s.l1, fb_of::<W>(s.l2, u.kb)),
        l2: enter(row.len2, s.l2, fa_of::<W>(s.l1, u.ir, u.ka)),
    }
}

// The clocks of a round.
pub fn clocks<W: Width>(u: KnownInput, s: KnownRegisters) -> KnownRegisters
    ensures { result ≡ clocks_words W.Width.row u (W.Width.row).clocks s }
{
    let mut t = s;
    for _ in 0..W::row().clocks {
        t = clock::<W>(u, t);
    }
    t
}

// The key bits that follow in a KATAN's window by the rule, the next two and more: low and high are its words.
pub fn following(low: KnownBits, high: KnownBits) -> KnownBits
    ensures { result ≡ following_of low high }
{
    settled(term(low) ^ term(at(low, 19)) ^ term(at(low, 30)) ^ term(at(high, 3)))
}
