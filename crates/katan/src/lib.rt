// The KATAN and KTANTAN ciphers: types, and, in specs/, their definitions.
#![tactic(auto)]

ghost use Rattle.std.specs.Prelude.{◌≡◌};
ghost use Rattle.katan.specs.Checks.{number_of};

use std::error::Error;
use std::fmt;

// The rounds are 0 to 253.
pub const ROUNDS: u8 = 254;

// The same as a table's length, with one entry a round.
pub const ROUND_COUNT: usize = ROUNDS as usize;

// The key bits of all rounds: ka and kb of each.
pub const ROUND_KEYS: usize = 2 * ROUND_COUNT;

// The bits of a key.
pub const KEY_BITS: usize = 80;

// The lanes of a bench, and the most blocks of one call.
pub const LANES: usize = 64;

// The bits of a word: so many lanes are worked together.
pub const WORD_BITS: usize = 64;

// The bytes of a word.
pub const WORD_BYTES: usize = 8;

// The bytes of a key.
pub const KEY_BYTES: usize = 10;

// A row of the variants' table: the block's width, the registers' lengths, the taps of fa and fb, the clocks a round.
#[derive(Clone, Copy)]
pub struct Row {
    pub n: usize,
    pub len1: usize,
    pub len2: usize,
    pub x1: usize,
    pub x2: usize,
    pub x3: usize,
    pub x4: usize,
    pub x5: usize,
    pub y1: usize,
    pub y2: usize,
    pub y3: usize,
    pub y4: usize,
    pub y5: usize,
    pub y6: usize,
    // As 32 bits, so that a position times these clocks fits for any row. Where they are places they go by `as`: std has no From from u32 to usize.
    pub clocks: u32,
}

// L1 and L2.
#[derive(Clone, Copy)]
pub struct Registers {
    pub l1: u64,
    pub l2: u64,
}

// What all clocks of a round share.
#[derive(Clone, Copy)]
pub struct RoundInput {
    pub ir: u64,
    pub ka: u64,
    pub kb: u64,
}

// How many rounds a block has behind it, 0 to 254. It may hold any byte: calls take it as it comes and refuse one over 254 in its turn. Inside, a few functions
// ask that it is not over 254, and only hand it on: a type of its own would be no plainer.
#[derive(Clone, Copy)]
pub struct RoundPosition(pub u8);

// How many clocks lie before a clock, from 0.
#[derive(Clone, Copy)]
pub struct ClockNumber(pub usize);

// A key of 80 bits: bits 0 to 63, and 64 to 79.
#[derive(Clone, Copy)]
pub struct Key {
    pub low: u64,
    pub high: u16,
}

// Document 01's "Turned away", 1 to 13 in its order; then document 02's, from 14 on.
#[derive(Clone, Copy, Debug, PartialEq, Eq)]
pub enum Refusal {
    BadVariant,
    BadLength,
    BadKind,
    FieldNotZero,
    BadLane,
    BadPosition,
    BadBlock,
    EmptyMask,
    OutOfTurn,
    OtherBytes,
    EmptyLane,
    BadRate,
    BadForm,
    BeyondEnd,
    BadClock,
    Contradiction,
}

// The number of a refusal: document 01's, and from 14 on document 02's. By arms, since two refusals of one number could not be written as discriminants, and the
// promise is to refuse them.
impl From<Refusal> for u8 {
    ghost from_gives = { λ r n. n ≡ number_of r };

    fn from(refusal: Refusal) -> u8 {
        match refusal {
            Refusal::BadVariant => 1,
            Refusal::BadLength => 2,
            Refusal::BadKind => 3,
            Refusal::FieldNotZero => 4,
            Refusal::BadLane => 5,
            Refusal::BadPosition => 6,
            Refusal::BadBlock => 7,
            Refusal::EmptyMask => 8,
            Refusal::OutOfTurn => 9,
            Refusal::OtherBytes => 10,
            Refusal::EmptyLane => 11,
            Refusal::BadRate => 12,
            Refusal::BadForm => 13,
            Refusal::BeyondEnd => 14,
            Refusal::BadClock => 15,
            Refusal::Contradiction => 16,
        }
    }
}

impl fmt::Display for Refusal {
    fn fmt<W: fmt::Write>(&self, f: &mut fmt::Formatter<W>) -> fmt::Result {
        write!(f, "refused {}", u8::from(*self))
    }
}

impl Error for Refusal {}
