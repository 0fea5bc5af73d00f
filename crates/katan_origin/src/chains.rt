// fa and fb of a clock, followed back bit by bit: what enters L2 is made from bits that entered L1 earlier, what enters L1 from
// bits that entered L2, down to the block. Nothing is remembered: a bit that is met twice is followed twice.
ghost use Rattle.std.specs.Prelude.{◌≡◌, ℕ, ◌+◌, ◌-◌, ◌^◌, ◌<◌, ◌≤◌};
ghost use Rattle.katan.specs.Clock.{fa as fa_formula, fb as fb_formula, registers};
ghost use Rattle.katan.specs.Key.{key_number};
ghost use Rattle.katan.specs.Variant.{row_of};
ghost use Rattle.katan_origin.specs.Chains.{xor_traced, and_traced, given, block_bit, clock_input, fa_at, fb_at};
ghost use Rattle.katan_origin.specs.Origin.{last_clock};

use katan::{ClockNumber, Key, RoundInput, RoundPosition, Row};
use std::ops::{BitAnd, BitXor};

// A bit, and how many block bits were looked up for it.
#[derive(Clone, Copy)]
pub struct Traced {
    pub bit: u64,
    pub count: u64,
}

impl BitXor<Traced> for Traced {
    type Output = Traced;

    ghost can_bitxor = { λ a b. a.count + b.count < 2 ^ 64 };

    ghost bitxor_gives = { λ a b r. r ≡ xor_traced a b };

    fn bitxor(self, other: Traced) -> Traced {
        Traced {
            bit: self.bit ^ other.bit,
            count: self.count + other.count,
        }
    }
}

// The counts are added whatever the bits are: x5 is followed also where IR is 0.
impl BitAnd<Traced> for Traced {
    type Output = Traced;

    ghost can_bitand = { λ a b. a.count + b.count < 2 ^ 64 };

    ghost bitand_gives = { λ a b r. r ≡ and_traced a b };

    fn bitand(self, other: Traced) -> Traced {
        Traced {
            bit: self.bit & other.bit,
            count: self.count + other.count,
        }
    }
}

// The run of clocks that bits are followed back through: its variant, the row and the key, and the block at position 0.
#[derive(Clone, Copy)]
pub struct Run {
    pub variant: u8,
    pub row: Row,
    pub key: Key,
    pub block: u64,
    ghost is_row: { row ≡ row_of variant },
}

// A clock of a run, at most the last that is answered. The run is lent: a clock is passed on at each bit that is followed.
#[derive(Clone, Copy)]
pub struct Clock<'r> {
    pub run: &'r Run,
    pub number: ClockNumber,
    ghost early: { number.0 ≤ last_clock },
}

// A bit of the block by its number.
fn block_bit(block: u64, i: usize) -> Traced
    ensures { result ≡ block_bit block i }
{
    Traced {
        bit: katan_numbers::bit_of(block, i),
        count: 1,
    }
}

// IR or a key bit: no block bit.
fn given(bit: u64) -> Traced
    ensures { result ≡ given bit }
{
    Traced { bit, count: 0 }
}

// fa of the bits at its five places. fa and fb are two formulas, and the bits of each register lead to the other's.
fn fa_of(x1: Traced, x2: Traced, x3: Traced, x4: Traced, x5: Traced, u: RoundInput) -> Traced
    requires { x1.count + (x2.count + x3.count + x4.count + x5.count) < 2 ^ 64 }
    ensures { (v : Row) (l : ℕ → Traced) → (x1 ≡ l v.x1) × (x2 ≡ l v.x2) × (x3 ≡ l v.x3) × (x4 ≡ l v.x4) × (x5 ≡ l v.x5)
        → result ≡ fa_formula xor_traced and_traced v l (given u.ir) (given u.ka) }
{
    x1 ^ (x2 ^ (x3 & x4) ^ (x5 & given(u.ir)) ^ given(u.ka))
}

// fb of the bits at its six places.
fn fb_of(
    y1: Traced,
    y2: Traced,
    y3: Traced,
    y4: Traced,
    y5: Traced,
    y6: Traced,
    u: RoundInput,
) -> Traced
    requires { y1.count + (y2.count + y3.count + y4.count + y5.count + y6.count) < 2 ^ 64 }
    ensures { (v : Row) (l : ℕ → Traced) → (y1 ≡ l v.y1) × (y2 ≡ l v.y2) × (y3 ≡ l v.y3) × (y4 ≡ l v.y4) × (y5 ≡ l v.y5) × (y6 ≡ l v.y6)
        → result ≡ fb_formula xor_traced and_traced v l (given u.kb) }
{
    y1 ^ (y2 ^ (y3 & y4) ^ (y5 & y6) ^ given(u.kb))
}

impl Run {
    // The bit at place i of the block's L1, which begins at block bit len2.
    fn bit_of_l1(&self, i: usize) -> Traced
        requires { i ≤ self.now.row.x1 }
        ensures { result ≡ block_bit (registers self.now.row self.now.block).l1 i }
    {
        block_bit(self.block, self.row.len2 + i)
    }

    // And of its L2, which begins at block bit 0.
    fn bit_of_l2(&self, i: usize) -> Traced
        requires { i ≤ self.now.row.y1 }
        ensures { result ≡ block_bit (registers self.now.row self.now.block).l2 i }
    {
        block_bit(self.block, i)
    }
}

impl<'r> Clock<'r> {
    // IR and the key bits of its round: a clock number becomes a position only through the row's clocks a round.
    fn input(self) -> RoundInput
        ensures { result ≡ clock_input self.entry.run.now.variant (key_number self.entry.run.now.key) self.entry.number.0 }
    {
        let clocks = self.run.row.clocks as usize;
        // It fits, as proved.
        let round = RoundPosition((self.number.0 / clocks) as u8);
        katan_registers::round_input(self.run.variant, self.run.key, round)
    }

    // The clock at which the bit at place i entered its register.
    fn entered(self, i: usize) -> Clock<'r>
        requires { i < self.number.0 }
        ensures { (result.run.now ≡ self.entry.run.now) × (result.number.0 ≡ self.entry.number.0 - 1 - i) }
    {
        Clock {
            run: self.run,
            number: ClockNumber(self.number.0 - 1 - i),
        }
    }

    // fa of the clock. At each place of L1 stands a bit that entered at an earlier clock, fb of that clock, or a bit of the block. The
    // lines repeat at each place: a function of the place would stand between fa and fb, which call each other directly.
    #[cycle(fa_fb)]
    pub fn fa(self) -> Traced
        ensures { result ≡ fa_at self.entry.run.now.variant (key_number self.entry.run.now.key) self.entry.run.now.block self.entry.number.0 }
    {
        let t = self.number.0;
        let run = self.run;
        let row = &run.row;
        let x1 = if row.x1 < t {
            self.entered(row.x1).fb()
        } else {
            run.bit_of_l1(row.x1 - t)
        };
        let x2 = if row.x2 < t {
            self.entered(row.x2).fb()
        } else {
            run.bit_of_l1(row.x2 - t)
        };
        let x3 = if row.x3 < t {
            self.entered(row.x3).fb()
        } else {
            run.bit_of_l1(row.x3 - t)
        };
        let x4 = if row.x4 < t {
            self.entered(row.x4).fb()
        } else {
            run.bit_of_l1(row.x4 - t)
        };
        let x5 = if row.x5 < t {
            self.entered(row.x5).fb()
        } else {
            run.bit_of_l1(row.x5 - t)
        };
        fa_of(x1, x2, x3, x4, x5, self.input())
    }

    // fb of the clock, in the same way from the places of L2, which fa enters.
    #[cycle(fa_fb)]
    pub fn fb(self) -> Traced
        ensures { result ≡ fb_at self.entry.run.now.variant (key_number self.entry.run.now.key) self.entry.run.now.block self.entry.number.0 }
    {
        let t = self.number.0;
        let run = self.run;
        let row = &run.row;
        let y1 = if row.y1 < t {
            self.entered(row.y1).fa()
        } else {
            run.bit_of_l2(row.y1 - t)
        };
        let y2 = if row.y2 < t {
            self.entered(row.y2).fa()
        } else {
            run.bit_of_l2(row.y2 - t)
        };
        let y3 = if row.y3 < t {
            self.entered(row.y3).fa()
        } else {
            run.bit_of_l2(row.y3 - t)
        };
        let y4 = if row.y4 < t {
            self.entered(row.y4).fa()
        } else {
            run.bit_of_l2(row.y4 - t)
        };
        let y5 = if row.y5 < t {
            self.entered(row.y5).fa()
        } else {
            run.bit_of_l2(row.y5 - t)
        };
        let y6 = if row.y6 < t {
            self.entered(row.y6).fa()
        } else {
            run.bit_of_l2(row.y6 - t)
        };
        fb_of(y1, y2, y3, y4, y5, y6, self.input())
    }
}
