// What rounds take: one round's input, and the words of a stride's rounds.
ghost use Rattle.std.specs.Prelude.{◌≡◌, ℕ, ◌<◌, ◌≤◌, ◌+◌, ◌-◌, ◌*◌, ◌^◌, get_or};
ghost use Rattle.katan.specs.Counter.{rounds};
ghost use Rattle.katan.specs.Stride.{stride_of};
ghost use Rattle.katan_keys.specs.Window.{window_number};
ghost use Rattle.katan_clocks.specs.inner.Words.{beside, words_of};
ghost use Rattle.katan_registers.specs.inner.Tables.{input_from, table_input, key_bit, rounds_input};

use crate::rounds::Machine;
use katan::RoundInput;
use katan_keys::Window;
use katan_variants::{Tables, Width};

// IR from the round's T, and ka and kb, which have these places in the source.
fn input_from(counter: u8, source: Window, ka: usize, kb: usize) -> RoundInput
    ensures { result ≡ input_from counter (window_number source) ka kb }
{
    RoundInput {
        ir: (u64::from(counter) >> 7) % 2,
        ka: katan_keys::bit_at(source, ka),
        kb: katan_keys::bit_at(source, kb),
    }
}

// The input of round r. KATAN's key bits are the two lowest of the window; KTANTAN's table names them. r is the index
// into both tables.
pub fn input_of(variant: u8, tables: &Tables, r: usize, source: Window) -> RoundInput
    requires { r < rounds }
    ensures { result ≡ table_input variant tables.now.counters tables.now.numbers r (window_number source) }
{
    if katan_variants::is_katan(variant) {
        return input_from(tables.counters[r], source, 0, 1);
    }
    let ka = usize::from(tables.numbers[2 * r]);
    let kb = usize::from(tables.numbers[2 * r + 1]);
    input_from(tables.counters[r], source, ka, kb)
}

// A word of a bit of each round of a stride, the first round's highest, in each of its clocks. `bit` gives the bit of the round j
// after the first.
fn word_of<W: Width, F: Fn(usize) -> u64>(bit: F) -> u64
    requires callable { (j : ℕ) → j < stride_of W.Width.row → F.pre bit j }
    requires small { (j x : ℕ) → j < stride_of W.Width.row → F.post bit j x → x < 2 ^ 8 }
    ensures { (f : ℕ → ℕ) → ((j x : ℕ) → j < stride_of W.Width.row → F.post bit j x → x ≡ f j) → result ≡ beside W.Width.row.clocks f (stride_of W.Width.row) * (2 ^ W.Width.row.clocks - 1) }
{
    let clocks = W::row().clocks as usize;
    let mut word: u64 = 0;
    for j in 0..katan_variants::stride::<W>() {
        word = (word << clocks) + bit(j);
    }
    word * ((1 << clocks) - 1)
}

impl<'t, W: Width> Machine<'t, W> {
    // KTANTAN: the key bit that entry i of the table names.
    fn picked(&self, picks: &[u8; katan::KEY_BITS], i: usize) -> u64
        requires { i < 2 * rounds }
        ensures is { result ≡ get_or picks.now (get_or self.now.tables.now.numbers i 0) 0 }
        ensures small { result < 2 ^ 8 }
    {
        u64::from(picks[usize::from(self.tables.numbers[i])])
    }

    // ka of the rounds of a stride from round r on where i is 0, kb where it is 1. KATAN's are every second bit of the window, from bit i
    // on.
    fn key_word(&self, picks: &[u8; katan::KEY_BITS], r: usize, source: Window, i: usize) -> u64
        requires { (i < 2) × (r + stride_of W.Width.row ≤ rounds) }
        ensures { result ≡ beside W.Width.row.clocks (key_bit self.now.variant self.now.tables.now.numbers picks.now r (window_number source) i) (stride_of W.Width.row) * (2 ^ W.Width.row.clocks - 1) }
    {
        if katan_variants::is_katan(self.variant) {
            word_of::<W, _>(|j| katan_keys::bit_at(source, i + 2 * j))
        } else {
            word_of::<W, _>(|j| self.picked(picks, 2 * r + i + 2 * j))
        }
    }

    // The inputs of the rounds of a stride, from round r on. T shifts left, so that the next rounds' IR follow that of round r in its T.
    pub fn inputs(&self, picks: &[u8; katan::KEY_BITS], r: usize, source: Window) -> RoundInput
        requires { r + stride_of W.Width.row ≤ rounds }
        ensures { result ≡ words_of W.Width.row.clocks (rounds_input self.now.variant self.now.tables.now.counters self.now.tables.now.numbers picks.now r (window_number source)) (stride_of W.Width.row) }
    {
        let t = u64::from(self.tables.counters[r]);
        RoundInput {
            ir: word_of::<W, _>(|j| katan_numbers::bit_of(t, 7 - j)),
            ka: self.key_word(picks, r, source, 0),
            kb: self.key_word(picks, r, source, 1),
        }
    }
}
