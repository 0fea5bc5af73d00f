// The three widths with their rows, the tables, check 1 of a variant number, and the status of a call.
#![tactic(auto)]

ghost use Rattle.std.specs.Prelude.{◌≡◌, ◌*◌, ◌⊎◌};
ghost use Rattle.katan.specs.Bit.{tabulate};
ghost use Rattle.katan.specs.Counter.{counter, rounds};
ghost use Rattle.katan.specs.Key.{key_bit_number};
ghost use Rattle.katan.specs.declared.Row.{Row};
ghost use Rattle.katan.specs.Variant.{row32, row48, row64, row_of, width_of, is_katan};
ghost use Rattle.katan.specs.Stride.{stride_of};
ghost use Rattle.katan.specs.Checks.{outcome, variant_check};
ghost use Rattle.katan.specs.Lent.{status_of};
ghost use Rattle.katan.specs.Rows.{row_answer};
ghost use Rattle.katan_variants.specs.Widths.{IsRow, is_row32, is_row48, is_row64};

use katan::{ClockNumber, Refusal, RoundPosition, Row};

mod constants;

// What a call returns to a driver: 0, or the number of the first fault found.
pub fn status(answer: Result<(), Refusal>) -> u8
    ensures { result ≡ status_of (outcome answer) }
{
    match answer {
        Ok(()) => 0,
        Err(refusal) => u8::from(refusal),
    }
}

// A width of blocks. What is generic over it is made once for each width, with the row a constant, so that its taps are compiled in.
pub trait Width {
    ghost row: { Row };

    // It is one of the three rows.
    ghost known: { IsRow row };

    fn row() -> Row
        ensures { result ≡ row };
}

// KATAN32 and KTANTAN32.
pub struct Bits32;

impl Width for Bits32 {
    ghost row = { row32 };

    ghost known = { is_row32 };

    fn row() -> Row {
        Row {
            n: 32,
            len1: 13,
            len2: 19,
            x1: 12,
            x2: 7,
            x3: 8,
            x4: 5,
            x5: 3,
            y1: 18,
            y2: 7,
            y3: 12,
            y4: 10,
            y5: 8,
            y6: 3,
            clocks: 1,
        }
    }
}

// KATAN48 and KTANTAN48.
pub struct Bits48;

impl Width for Bits48 {
    ghost row = { row48 };

    ghost known = { is_row48 };

    fn row() -> Row {
        Row {
            n: 48,
            len1: 19,
            len2: 29,
            x1: 18,
            x2: 12,
            x3: 15,
            x4: 7,
            x5: 6,
            y1: 28,
            y2: 19,
            y3: 21,
            y4: 13,
            y5: 15,
            y6: 6,
            clocks: 2,
        }
    }
}

// KATAN64 and KTANTAN64.
pub struct Bits64;

impl Width for Bits64 {
    ghost row = { row64 };

    ghost known = { is_row64 };

    fn row() -> Row {
        Row {
            n: 64,
            len1: 25,
            len2: 39,
            x1: 24,
            x2: 15,
            x3: 20,
            x4: 11,
            x5: 9,
            y1: 38,
            y2: 25,
            y3: 33,
            y4: 21,
            y5: 14,
            y6: 9,
            clocks: 3,
        }
    }
}

// Check 1 of a variant number. A variant is a number and no enum in every call: calls take any byte, and their promises say what 0 and 7 to 255 get, in check 1's
// turn.
pub fn bad_variant(variant: u8) -> bool
    ensures { result ≡ (variant_check variant).fault }
{
    if 1 <= variant { 6 < variant } else { true }
}

// Of the variants 1 to 6, the first three are KATAN and the others KTANTAN. The number 0 counts as a KATAN, one above 6 as a KTANTAN.
const LAST_KATAN: u8 = 3;

pub fn is_katan(variant: u8) -> bool
    ensures { result ≡ is_katan variant }
{
    variant <= LAST_KATAN
}

pub fn row_of(variant: u8) -> Result<Row, Refusal>
    ensures { outcome result ≡ row_answer variant }
{
    match variant {
        1 => Ok(Bits32::row()),
        2 => Ok(Bits48::row()),
        3 => Ok(Bits64::row()),
        4 => Ok(Bits32::row()),
        5 => Ok(Bits48::row()),
        6 => Ok(Bits64::row()),
        _ => Err(Refusal::BadVariant),
    }
}

// The rounds of a stride.
pub fn stride<W: Width>() -> usize
    ensures { result ≡ stride_of W.Width.row }
{
    let row = W::row();
    (row.x5 + 1) / row.clocks as usize
}

// The width of a variant's blocks; KATAN32's where there is no such variant.
pub fn width_of(variant: u8) -> usize
    ensures { result ≡ width_of variant }
{
    match row_of(variant) {
        Ok(row) => row.n,
        Err(_) => Bits32::row().n,
    }
}

// The first clock of the round at a position: a position becomes a clock number only through the row's clocks a round.
pub fn first_clock(row: Row, at: RoundPosition) -> ClockNumber
    ensures { result.0 ≡ row.clocks * at.0 }
{
    let clocks = row.clocks as usize;
    let rounds = usize::from(at.0);
    ClockNumber(clocks * rounds)
}

// T of each round.
pub fn counters() -> [u8; katan::ROUND_COUNT]
    ensures { result ≡ tabulate counter 0 rounds }
{
    constants::COUNTERS
}

// The KTANTAN key bit numbers, ka's and kb's of each round.
pub fn key_bit_numbers() -> [u8; katan::ROUND_KEYS]
    ensures { result ≡ tabulate key_bit_number 0 (2 * rounds) }
{
    constants::KEY_BIT_NUMBERS
}

// The two tables together. `counters` has T of each round, `numbers` the KTANTAN key bit numbers, ka's and kb's of each round.
#[derive(Clone, Copy)]
pub struct Tables {
    pub counters: [u8; katan::ROUND_COUNT],
    pub numbers: [u8; katan::ROUND_KEYS],
    ghost counters_are: { counters ≡ tabulate counter 0 rounds },
    ghost numbers_are: { numbers ≡ tabulate key_bit_number 0 (2 * rounds) },
}

impl Tables {
    pub fn new() -> Tables {
        Tables {
            counters: counters(),
            numbers: key_bit_numbers(),
        }
    }
}
