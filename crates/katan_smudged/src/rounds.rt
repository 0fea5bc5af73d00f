// Rounds on bits of which some are unknown, from position 0 on.
ghost use Rattle.std.specs.Prelude.{◌≡◌, false, List, ◌<◌, ◌≤◌, length};
ghost use Rattle.katan.specs.Counter.{rounds};
ghost use Rattle.katan.specs.Key.{key_length};
ghost use Rattle.katan.specs.Variant.{row_of, width_of};
ghost use Rattle.katan_sheet.specs.Three.{Three};
ghost use Rattle.katan_sheet.specs.Cells.{Cells};
ghost use Rattle.katan_sheet.specs.Sheet.{smudged_at, contradicts};
ghost use Rattle.katan_sheet.specs.Answers.{key_known};
ghost use Rattle.katan_smudged.specs.inner.Words.{clocks_words, registers_words, block_words, Fit, source_bit, input_from, input_words, source_bits, Follows, Runs};

use crate::words::{KnownInput, KnownRegisters, KnownSource, clocks, each, following};
use katan::{Registers, RoundPosition, Row};
use katan_sheet::{Known, KnownBits, KnownKey};
use katan_variants::{Bits32, Bits48, Bits64, Tables, Width};

// The registers at a position, and its source.
#[derive(Clone, Copy)]
struct Running {
    registers: KnownRegisters,
    source: KnownSource,
}

fn source_bit(w: KnownSource, i: usize) -> KnownBits
    ensures { result ≡ source_bit w i }
{
    each(w, |w| katan_keys::bit_at(w, i))
}

// IR, which is known, from the round's T; and ka and kb, which have these places in the source.
fn input_from(counter: u8, w: KnownSource, ka: usize, kb: usize) -> KnownInput
    ensures { result ≡ input_from counter w ka kb }
{
    let ir = (u64::from(counter) >> 7) % 2;
    KnownInput {
        ir: Known {
            ones: ir,
            zeros: 1 - ir,
        },
        ka: source_bit(w, ka),
        kb: source_bit(w, kb),
    }
}

// The input of round r. KATAN's key bits are the two lowest of the window; KTANTAN's table names them. As in katan_registers, of bits that may be unknown: one
// function over both would take the source's type, with its own way to a bit and a law for it.
fn input_of(variant: u8, tables: &Tables, r: usize, w: KnownSource) -> KnownInput
    requires { r < rounds }
    ensures { result ≡ input_words variant tables.now.counters tables.now.numbers r w }
{
    let counter = tables.counters[r];
    if katan_variants::is_katan(variant) {
        return input_from(counter, w, 0, 1);
    }
    let ka = usize::from(tables.numbers[2 * r]);
    let kb = usize::from(tables.numbers[2 * r + 1]);
    input_from(counter, w, ka, kb)
}

// The source of the next position: a KATAN's window moves on.
fn next_source(variant: u8, w: KnownSource) -> KnownSource
    ensures { Follows variant w result }
{
    if katan_variants::is_katan(variant) {
        let e = following(each(w, |w| w.low), each(w, |w| w.high));
        return Known {
            ones: katan_keys::slide(w.ones, e.ones),
            zeros: katan_keys::slide(w.zeros, e.zeros),
        };
    }
    w
}

// A round.
fn round_of<W: Width>(variant: u8, tables: &Tables, r: usize, h: Running) -> Running
    requires { r < rounds }
    ensures { (result.registers ≡ clocks_words W.Width.row (input_words variant tables.now.counters tables.now.numbers r h.source) (W.Width.row).clocks h.registers) × Follows variant h.source result.source }
{
    let u = input_of(variant, tables, r, h.source);
    Running {
        registers: clocks::<W>(u, h.registers),
        source: next_source(variant, h.source),
    }
}

// The rounds from position 0 to a later one, at most the last: what the registers hold then. The three functions that ask this of `to` only
// hand it on: a type of such positions would be no plainer.
fn run_at<W: Width>(variant: u8, start: Running, to: RoundPosition) -> KnownRegisters
    requires { (W.Width.row ≡ row_of variant) × (to.0 ≤ rounds) }
    ensures { Runs variant start.registers start.source to.0 result }
{
    let tables = Tables::new();
    let mut h = start;
    for r in 0..usize::from(to.0) {
        h = round_of::<W>(variant, &tables, r, h);
    }
    h.registers
}

// The same at a variant's width.
fn run_of(variant: u8, start: Running, to: RoundPosition) -> KnownRegisters
    requires { to.0 ≤ rounds }
    ensures { Runs variant start.registers start.source to.0 result }
{
    match variant {
        2 | 5 => run_at::<Bits48>(variant, start, to),
        3 | 6 => run_at::<Bits64>(variant, start, to),
        _ => run_at::<Bits32>(variant, start, to),
    }
}

fn registers_of(row: Row, block: KnownBits) -> KnownRegisters
    ensures { result ≡ registers_words row block }
{
    let s = each(block, |x| katan_numbers::registers_of(row, x));
    KnownRegisters {
        l1: each(s, |s| s.l1),
        l2: each(s, |s| s.l2),
    }
}

fn block_of(row: Row, s: KnownRegisters) -> KnownBits
    ensures { result ≡ block_words row s }
{
    let ones = Registers {
        l1: s.l1.ones,
        l2: s.l2.ones,
    };
    let zeros = Registers {
        l1: s.l1.zeros,
        l2: s.l2.zeros,
    };
    Known {
        ones: katan_numbers::block_of(row, ones),
        zeros: katan_numbers::block_of(row, zeros),
    }
}

// A key is the source of position 0.
fn source_of(key: KnownKey) -> KnownSource
    ensures { (source_bits result ≡ key_known key) × Fit key_length (source_bits result) }
{
    each(key, |k| katan_keys::key_words(k))
}

// What is known of the registers at a position, with the block in them at position 0.
pub fn smudged_to(
    variant: u8,
    row: Row,
    block: KnownBits,
    key: KnownKey,
    to: RoundPosition,
) -> KnownBits
    requires { (row ≡ row_of variant) × (to.0 ≤ rounds) × Fit (width_of variant) block × (contradicts block ≡ false) × (contradicts (key_known key) ≡ false) }
    ensures { result ≡ smudged_at variant (key_known key) block to.0 }
{
    let start = Running {
        registers: registers_of(row, block),
        source: source_of(key),
    };
    block_of(row, run_of(variant, start, to))
}
