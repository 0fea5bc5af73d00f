// Runs of rounds, forward and back: strides, and single rounds for the rest.
ghost use Rattle.std.specs.Prelude.{◌≡◌, ℕ, ◌<◌, ◌≤◌, ◌^◌, ◌+◌, ◌-◌, ◌*◌};
ghost use Rattle.katan.specs.Counter.{rounds};
ghost use Rattle.katan.specs.Key.{key_number};
ghost use Rattle.katan.specs.Clock.{run, unrun, input_of};
ghost use Rattle.katan.specs.Variant.{row_of, width_of};
ghost use Rattle.katan.specs.Stride.{stride_of};
ghost use Rattle.katan.specs.Machine.{registers_at};
ghost use Rattle.katan_registers.specs.declared.rounds.Running.{Running};
ghost use Rattle.katan_registers.specs.inner.Tables.{KeyBits};
ghost use Rattle.katan_registers.specs.inner.Moves.{Moves, MovesBack};

use crate::inputs::input_of;
use katan::{Key, Registers, RoundPosition};
use katan_keys::{Step, Window};
use katan_variants::{Tables, Width};
use std::marker::PhantomData;

// The registers at a position, and its source: what the rounds find their key bits in, a KATAN's window or a KTANTAN's key.
#[derive(Clone, Copy)]
struct Running {
    registers: Registers,
    source: Window,
}

// n moves of c rounds each, from round r on.
fn forth<F: Fn(usize, Running) -> Running>(
    r: usize,
    c: usize,
    n: usize,
    h: Running,
    step: F,
) -> Running
    requires within { r + n * c ≤ rounds }
    requires callable { (p : ℕ) (t : Running) → p + c ≤ rounds → F.pre step p t }
    ensures { (v key : ℕ) → ((p : ℕ) (t u : Running) → p + c ≤ rounds → F.post step p t u → Moves v key p c t u) → Moves v key r (n * c) h result }
{
    let mut t = h;
    for i in 0..n {
        t = step(r + i * c, t);
    }
    t
}

// The same undone, down to round r.
fn back<F: Fn(usize, Running) -> Running>(
    r: usize,
    c: usize,
    n: usize,
    h: Running,
    step: F,
) -> Running
    requires within { r + n * c ≤ rounds }
    requires callable { (p : ℕ) (t : Running) → p + c ≤ rounds → F.pre step p t }
    ensures { (v key : ℕ) → ((p : ℕ) (t u : Running) → p + c ≤ rounds → F.post step p t u → MovesBack v key p c t u) → MovesBack v key r (n * c) h result }
{
    let mut t = h;
    for i in (0..n).rev() {
        t = step(r + i * c, t);
    }
    t
}

// What all rounds of a run share: the variant, of W's width, its key, and the tables by which its rounds find their inputs. Those of
// strides take the key's bits too, lent beside it: a move of one round would be slower by the time that it takes to write them out.
//
// Each way has functions of its own: they differ in the formulas, in the order, the last round first, and in where the source steps,
// behind a round or before it, so that one function for both would hold every line twice. `strides` and `unstrides` alone read alike: a trait of the two ways, with
// its laws of Moves and MovesBack, would have more lines than one function saves. Round number and Running change from call to call, and so stay parameters.
#[derive(Drop)]
pub struct Machine<'t, W: Width> {
    pub variant: u8,
    pub key: Key,
    pub tables: &'t Tables,
    pub width: PhantomData<W>,
    ghost its_row: { W.Width.row ≡ row_of variant },
}

impl<'t, W: Width> Machine<'t, W> {
    // One round.
    fn round(&self, r: usize, h: Running) -> Running
        requires { r < rounds }
        ensures { Moves self.now.variant (key_number self.now.key) r 1 h result }
    {
        let u = input_of(self.variant, self.tables, r, h.source);
        Running {
            registers: katan_clocks::round::<W>(u, h.registers),
            source: katan_keys::next_source(self.variant, Step::round(), h.source),
        }
    }

    // The same undone: the source steps first.
    fn unround(&self, r: usize, h: Running) -> Running
        requires { r < rounds }
        ensures { MovesBack self.now.variant (key_number self.now.key) r 1 h result }
    {
        let before = katan_keys::previous_source(self.variant, Step::round(), h.source);
        let u = input_of(self.variant, self.tables, r, before);
        Running {
            registers: katan_clocks::unround::<W>(u, h.registers),
            source: before,
        }
    }

    // A stride, from round r on.
    fn stride(&self, picks: &[u8; katan::KEY_BITS], r: usize, h: Running) -> Running
        requires { (r + stride_of (row_of self.now.variant) ≤ rounds) × KeyBits self.now.variant (key_number self.now.key) picks.now }
        ensures { Moves self.now.variant (key_number self.now.key) r (stride_of (row_of self.now.variant)) h result }
    {
        let w = self.inputs(picks, r, h.source);
        Running {
            registers: katan_clocks::stride::<W>(w, h.registers),
            source: katan_keys::next_source(self.variant, Step::stride::<W>(), h.source),
        }
    }

    // The same undone.
    fn unstride(&self, picks: &[u8; katan::KEY_BITS], r: usize, h: Running) -> Running
        requires { (r + stride_of (row_of self.now.variant) ≤ rounds) × KeyBits self.now.variant (key_number self.now.key) picks.now }
        ensures { MovesBack self.now.variant (key_number self.now.key) r (stride_of (row_of self.now.variant)) h result }
    {
        let before = katan_keys::previous_source(self.variant, Step::stride::<W>(), h.source);
        let w = self.inputs(picks, r, before);
        Running {
            registers: katan_clocks::unstride::<W>(w, h.registers),
            source: before,
        }
    }

    // The bits from which the rounds of a KTANTAN pick; a KATAN's take theirs from the window.
    fn picks(&self) -> [u8; katan::KEY_BITS]
        ensures { KeyBits self.now.variant (key_number self.now.key) result }
    {
        if katan_variants::is_katan(self.variant) {
            return [0; katan::KEY_BITS];
        }
        katan_keys::key_bits(self.key)
    }

    // n strides from round r on. Where there are none, as in a move of one round, the key's bits need not be written out.
    fn strides(&self, r: usize, n: usize, h: Running) -> Running
        requires { r + n * stride_of (row_of self.now.variant) ≤ rounds }
        ensures { Moves self.now.variant (key_number self.now.key) r (n * stride_of (row_of self.now.variant)) h result }
    {
        if n == 0 {
            return h;
        }
        let picks = self.picks();
        let stride = katan_variants::stride::<W>();
        forth(r, stride, n, h, |p, t| self.stride(&picks, p, t))
    }

    // The same undone, down to round r.
    fn unstrides(&self, r: usize, n: usize, h: Running) -> Running
        requires { r + n * stride_of (row_of self.now.variant) ≤ rounds }
        ensures { MovesBack self.now.variant (key_number self.now.key) r (n * stride_of (row_of self.now.variant)) h result }
    {
        if n == 0 {
            return h;
        }
        let picks = self.picks();
        let stride = katan_variants::stride::<W>();
        back(r, stride, n, h, |p, t| self.unstride(&picks, p, t))
    }

    // The rounds from one position to a later one.
    fn run(&self, from: RoundPosition, to: RoundPosition, s: Registers) -> Registers
        requires { (from.0 ≤ to.0) × (to.0 ≤ rounds) }
        ensures { result ≡ run (row_of self.now.variant) (input_of self.now.variant (key_number self.now.key)) from.0 (to.0 - from.0) s }
    {
        let stride = katan_variants::stride::<W>();
        let first = usize::from(from.0);
        let count = usize::from(to.0) - first;
        let rest = count % stride;
        let start = Running {
            registers: s,
            source: katan_keys::source_at(self.variant, self.key, from),
        };
        let h = self.strides(first, count / stride, start);
        let t = forth(first + (count - rest), 1, rest, h, |p, t| self.round(p, t));
        t.registers
    }

    // The same rounds undone, the last first.
    fn unrun(&self, from: RoundPosition, to: RoundPosition, s: Registers) -> Registers
        requires { (to.0 ≤ from.0) × (from.0 ≤ rounds) }
        ensures { result ≡ unrun (row_of self.now.variant) (input_of self.now.variant (key_number self.now.key)) to.0 (from.0 - to.0) s }
    {
        let stride = katan_variants::stride::<W>();
        let last = usize::from(to.0);
        let count = usize::from(from.0) - last;
        let left = count % stride;
        let start = Running {
            registers: s,
            source: katan_keys::source_at(self.variant, self.key, from),
        };
        let h = self.unstrides(last + left, count / stride, start);
        back(last, 1, left, h, |p, t| self.unround(p, t)).registers
    }

    // The registers at one position of x loaded at another.
    pub fn between(&self, from: RoundPosition, to: RoundPosition, x: u64) -> u64
        requires { (from.0 ≤ rounds) × (to.0 ≤ rounds) × (x < 2 ^ width_of self.now.variant) }
        ensures { result ≡ registers_at self.now.variant (key_number self.now.key) from.0 x to.0 }
    {
        let row = W::row();
        let s = katan_numbers::registers_of(row, x);
        if from.0 <= to.0 {
            katan_numbers::block_of(row, self.run(from, to, s))
        } else {
            katan_numbers::block_of(row, self.unrun(from, to, s))
        }
    }
}
