// The key bits of the rounds: KATAN's window of 80 key bits, which moves along with the rounds, and KTANTAN's key, from which
// every round picks.
#![tactic(auto)]

ghost use Rattle.std.specs.Prelude.{◌≡◌, ◌≤◌};
ghost use Rattle.katan.specs.Bit.{bit};
ghost use Rattle.katan.specs.Key.{key_number, key_bits};
ghost use Rattle.katan.specs.Stride.{stride_of};
ghost use Rattle.katan_keys.specs.Window.{window_number, longest_step, slid, ahead, behind, times, source_at, next_source, previous_source};

use katan::{Key, RoundPosition};
use katan_variants::Width;

// What a round finds its key bits in, a KATAN's window or a KTANTAN's key: bits 0 to 63, and 64 to 79. Both are words: the
// empty bytes of an uneven struct would be copied in each round.
#[derive(Clone, Copy)]
pub struct Window {
    pub low: u64,
    pub high: u64,
}

// A step: some rounds at once, no more than the nearest bit of the rule allows.
#[derive(Clone, Copy)]
pub struct Step {
    pub rounds: usize,
    ghost some: { 1 ≤ rounds },
    ghost few: { rounds ≤ longest_step },
}

// The rounds of a step on the way to a position.
const LONGEST: usize = 6;

impl Step {
    pub fn round() -> Step
        ensures { result.rounds ≡ 1 }
    {
        Step { rounds: 1 }
    }

    pub fn stride<W: Width>() -> Step
        ensures { result.rounds ≡ stride_of W.Width.row }
    {
        Step {
            rounds: katan_variants::stride::<W>(),
        }
    }
}

impl Window {
    // The window a step on, whatever enters: its lowest bits leave, and those of e enter at the top.
    fn slid(self, step: Step, e: u64) -> Window
        ensures { window_number result ≡ slid step.rounds e (window_number self) }
    {
        let s = 2 * step.rounds;
        let entering = e % (1 << s);
        Window {
            low: (self.high << (64 - s)) | (self.low >> s),
            high: (self.high >> s) + (entering << (16 - s)),
        }
    }

    // The window a step on: what enters follows by the rule.
    fn ahead(self, step: Step) -> Window
        ensures { window_number result ≡ ahead step.rounds (window_number self) }
    {
        self.slid(
            step,
            self.low ^ (self.low >> 19) ^ (self.low >> 30) ^ (self.high >> 3),
        )
    }

    // The window a step back: it moves up, and the bits that had left follow by the rule read backwards, a formula of its own.
    fn behind(self, step: Step) -> Window
        ensures { window_number result ≡ behind step.rounds (window_number self) }
    {
        let s = 2 * step.rounds;
        let low = self.low << s;
        let high = (self.high << s) | (self.low >> (64 - s));
        let returning = ((high >> 16) ^ (high >> 3) ^ (low >> 30) ^ (low >> 19)) % (1 << s);
        Window {
            low: low | returning,
            high: high % 0x1_0000,
        }
    }

    // The window n steps on.
    fn after(self, n: usize, step: Step) -> Window
        ensures { window_number result ≡ times n (ahead step.rounds) (window_number self) }
    {
        let mut t = self;
        for _ in 0..n {
            t = t.ahead(step);
        }
        t
    }
}

// A round on, with the two lowest bits of e.
pub fn slide(w: Window, e: u64) -> Window
    ensures { window_number result ≡ slid 1 e (window_number w) }
{
    w.slid(Step::round(), e)
}

// The key itself, in two words.
pub fn key_words(key: Key) -> Window
    ensures { window_number result ≡ key_number key }
{
    Window {
        low: key.low,
        high: u64::from(key.high),
    }
}

// What the rounds from a position on find their key bits in.
pub fn source_at(variant: u8, key: Key, at: RoundPosition) -> Window
    ensures { window_number result ≡ source_at variant (key_number key) at.0 }
{
    let first = key_words(key);
    if katan_variants::is_katan(variant) {
        let p = usize::from(at.0);
        let near = first.after(p / LONGEST, Step { rounds: LONGEST });
        return near.after(p % LONGEST, Step::round());
    }
    first
}

// The same a step later, and a step earlier. One function for both would take the step from its caller as a closure, and each caller would choose between ahead and
// behind.
pub fn next_source(variant: u8, step: Step, w: Window) -> Window
    ensures { window_number result ≡ next_source variant step.rounds (window_number w) }
{
    if katan_variants::is_katan(variant) {
        w.ahead(step)
    } else {
        w
    }
}

pub fn previous_source(variant: u8, step: Step, w: Window) -> Window
    ensures { window_number result ≡ previous_source variant step.rounds (window_number w) }
{
    if katan_variants::is_katan(variant) {
        w.behind(step)
    } else {
        w
    }
}

// Bit i of the number in the two words, 0 past their end.
pub fn bit_at(w: Window, i: usize) -> u64
    ensures { result ≡ bit (window_number w) i }
{
    if i < katan::WORD_BITS {
        katan_numbers::bit_of(w.low, i)
    } else {
        katan_numbers::bit_of(w.high, i - katan::WORD_BITS)
    }
}

// The bits of a key, from which every round of a KTANTAN picks.
pub fn key_bits(key: Key) -> [u8; katan::KEY_BITS]
    ensures { result ≡ key_bits (key_number key) }
{
    let words = key_words(key);
    let mut bits = [0u8; katan::KEY_BITS];
    for (i, bit) in bits.iter_mut().enumerate() {
        // A bit fits a byte, as proved.
        *bit = bit_at(words, i) as u8;
    }
    bits
}
