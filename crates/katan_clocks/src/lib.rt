// Several clocks at once, forward and back. The lowest tap of a register is 3, 6 or 9 places up, so that the bits which enter in 4,
// 6 or 9 clocks depend only on bits that are there already: one formula over words gives them all.
#![tactic(auto)]

ghost use Rattle.std.specs.Prelude.{◌≡◌, ◌<◌, ◌≤◌, ◌+◌, ◌^◌, ◌/◌, ◌↔◌, IsTrue};
ghost use Rattle.katan.specs.Bit.{xor, and};
ghost use Rattle.katan.specs.Clock.{fa as fa_of, fb as fb_of, fa_rest, fb_rest, round as round_of, unround as unround_of};
ghost use Rattle.katan.specs.Sizes.{word_bits};
ghost use Rattle.katan.specs.inner.Within.{Sound};
ghost use Rattle.katan_clocks.specs.Clocks.{lowest, clocks_by, unclocks_by};
ghost use Rattle.katan.specs.Stride.{stride_clocks};
ghost use Rattle.katan_clocks.specs.inner.Words.{tap as tap_of, enter, restore, without, in_each};

use katan::{Registers, RoundInput, Row};
use katan_variants::Width;

// Clocks that are worked at once: a row, and so many of its clocks that each finds at its taps bits which were there before the first.
#[derive(Clone, Copy)]
struct Clocks {
    row: Row,
    count: usize,
    ghost sound: { Sound row },
    ghost some: { 1 ≤ count },
    ghost few: { count ≤ row.x5 + 1 },
}

// What stays the same from clock to clock is in self; input and registers are structs already.
impl Clocks {
    // The clocks of a stride: those of four rounds of 32-bit blocks, of three of the others.
    fn of_stride<W: Width>() -> Clocks
        ensures row { result.row ≡ W.Width.row }
        ensures count { result.count ≡ stride_clocks W.Width.row }
    {
        let row = W::row();
        let clocks = row.clocks as usize;
        Clocks {
            row,
            count: (row.x5 + 1) / clocks * clocks,
        }
    }

    // The clocks of a round.
    fn of_round<W: Width>() -> Clocks
        ensures row { result.row ≡ W.Width.row }
        ensures count { result.count ≡ W.Width.row.clocks }
    {
        let row = W::row();
        Clocks {
            row,
            count: row.clocks as usize,
        }
    }

    // What the clocks find at place i of a register, the first clock's highest.
    fn tap(self, l: u64, i: usize) -> u64
        requires { (i + 1 < word_bits) × (self.count ≤ i + 1) }
        ensures { result ≡ tap_of self.count l i }
    {
        l >> (i + 1 - self.count)
    }

    // fa and fb are two formulas, of five taps and IR and of six taps. They stand once in specs/, over any kind of bits, and in code for each kind: one function over a
    // type of bits would take its two operations, of which those that count must not run over and a product of unknown bits is of another type.
    fn fa(self, l: u64, w: RoundInput) -> u64
        ensures { result ≡ fa_of xor and self.row (tap_of self.count l) w.ir w.ka }
    {
        let v = self.row;
        self.tap(l, v.x1)
            ^ (self.tap(l, v.x2)
                ^ (self.tap(l, v.x3) & self.tap(l, v.x4))
                ^ (self.tap(l, v.x5) & w.ir)
                ^ w.ka)
    }

    fn fb(self, l: u64, w: RoundInput) -> u64
        ensures { result ≡ fb_of xor and self.row (tap_of self.count l) w.kb }
    {
        let v = self.row;
        self.tap(l, v.y1)
            ^ (self.tap(l, v.y2)
                ^ (self.tap(l, v.y3) & self.tap(l, v.y4))
                ^ (self.tap(l, v.y5) & self.tap(l, v.y6))
                ^ w.kb)
    }

    // A register of n bits shifts left, and as many of the lowest bits of b enter it.
    fn enter(self, n: usize, l: u64, b: u64) -> u64
        requires { n < word_bits }
        ensures { result ≡ enter n self.count l b }
    {
        ((l << self.count) + b % (1 << self.count)) % (1 << n)
    }

    fn go(self, w: RoundInput, s: Registers) -> Registers
        ensures { result ≡ clocks_by self.row self.count w s }
    {
        let a = self.fa(s.l1, w);
        let b = self.fb(s.l2, w);
        Registers {
            l1: self.enter(self.row.len1, s.l1, b),
            l2: self.enter(self.row.len2, s.l2, a),
        }
    }

    fn fa_rest(self, l: u64, w: RoundInput) -> u64
        ensures { result ≡ fa_rest xor and self.row (λ i. l / 2 ^ (i + 1)) w.ir w.ka }
    {
        let v = self.row;
        (l >> (v.x2 + 1))
            ^ ((l >> (v.x3 + 1)) & (l >> (v.x4 + 1)))
            ^ ((l >> (v.x5 + 1)) & w.ir)
            ^ w.ka
    }

    fn fb_rest(self, l: u64, w: RoundInput) -> u64
        ensures { result ≡ fb_rest xor and self.row (λ i. l / 2 ^ (i + 1)) w.kb }
    {
        let v = self.row;
        (l >> (v.y2 + 1))
            ^ ((l >> (v.y3 + 1)) & (l >> (v.y4 + 1)))
            ^ ((l >> (v.y5 + 1)) & (l >> (v.y6 + 1)))
            ^ w.kb
    }

    // A register of n bits shifts right, and as many of the lowest bits of t stand at its highest places.
    fn restore(self, n: usize, l: u64, t: u64) -> u64
        requires { (n < word_bits) × (self.count ≤ n) }
        ensures { result ≡ restore n self.count l t }
    {
        ((t % (1 << self.count)) << (n - self.count)) + (l >> self.count)
    }

    // Whether the clocks can be undone at once: not where the next tap stands too near the highest.
    fn can_go_back(self) -> bool
        ensures { IsTrue result ↔ (self.count + self.row.x3 ≤ self.row.x1) × (self.count + self.row.y3 ≤ self.row.y1) }
    {
        self.count + self.row.x3 <= self.row.x1 && self.count + self.row.y3 <= self.row.y1
    }

    // The clocks undone, a formula of its own: the rest of fa is taken from what had left.
    fn go_back(self, w: RoundInput, s: Registers) -> Registers
        requires { (self.count + self.row.x3 ≤ self.row.x1) × (self.count + self.row.y3 ≤ self.row.y1) }
        ensures { result ≡ unclocks_by self.row self.count w s }
    {
        let a = s.l2 ^ self.fa_rest(s.l1, w);
        let b = s.l1 ^ self.fb_rest(s.l2, w);
        Registers {
            l1: self.restore(self.row.len1, s.l1, a),
            l2: self.restore(self.row.len2, s.l2, b),
        }
    }

    // The words of the clocks before these.
    fn without(self, w: RoundInput) -> RoundInput
        ensures { result ≡ without self.count w }
    {
        RoundInput {
            ir: w.ir >> self.count,
            ka: w.ka >> self.count,
            kb: w.kb >> self.count,
        }
    }

    // One round's input, in each of the clocks.
    fn in_each(self, u: RoundInput) -> RoundInput
        ensures { result ≡ in_each self.count u }
    {
        let all = (1 << self.count) - 1;
        RoundInput {
            ir: u.ir % 2 * all,
            ka: u.ka % 2 * all,
            kb: u.kb % 2 * all,
        }
    }
}

// A stride: four rounds of 32-bit blocks, three of the others.
pub fn stride<W: Width>(w: RoundInput, s: Registers) -> Registers
    ensures { result ≡ clocks_by W.Width.row (stride_clocks W.Width.row) w s }
{
    Clocks::of_stride::<W>().go(w, s)
}

// The same undone, at once or round by round: not the other's formula with other numbers.
pub fn unstride<W: Width>(w: RoundInput, s: Registers) -> Registers
    ensures { result ≡ unclocks_by W.Width.row (stride_clocks W.Width.row) w s }
{
    let all = Clocks::of_stride::<W>();
    if all.can_go_back() {
        return all.go_back(w, s);
    }
    let one = Clocks::of_round::<W>();
    let second = one.without(w);
    let first = one.without(second);
    one.go_back(first, one.go_back(second, one.go_back(w, s)))
}

// One round, with the lowest bits of its input.
pub fn round<W: Width>(u: RoundInput, s: Registers) -> Registers
    ensures { result ≡ round_of W.Width.row (lowest u) s }
{
    let one = Clocks::of_round::<W>();
    one.go(one.in_each(u), s)
}

// The same undone.
pub fn unround<W: Width>(u: RoundInput, s: Registers) -> Registers
    ensures { result ≡ unround_of W.Width.row (lowest u) s }
{
    let one = Clocks::of_round::<W>();
    one.go_back(one.in_each(u), s)
}
