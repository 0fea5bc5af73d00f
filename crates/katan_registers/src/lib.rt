// The registers of one block, from one position to another; and what a round takes.
#![tactic(auto)]

ghost use Rattle.std.specs.Prelude.{◌≡◌, ◌<◌, ◌≤◌, ◌^◌};
ghost use Rattle.katan.specs.Counter.{rounds};
ghost use Rattle.katan.specs.Key.{key_number};
ghost use Rattle.katan.specs.Variant.{row_of, width_of};
ghost use Rattle.katan.specs.Checks.{outcome};
ghost use Rattle.katan.specs.Machine.{registers_at};
ghost use Rattle.katan_registers.specs.Answers.{registers_answer};
ghost use Rattle.katan_registers.specs.Inputs.{round_input};

use crate::inputs::input_of;
use crate::rounds::Machine;
use katan::{Key, Refusal, RoundInput, RoundPosition};
use katan_variants::{Bits32, Bits48, Bits64, Tables, Width};
use std::marker::PhantomData;

mod inputs;
mod rounds;

// The registers at one position of x loaded at another, at the variant's width. What is handed on are the arguments of the public call.
fn between<W: Width>(variant: u8, key: Key, from: RoundPosition, to: RoundPosition, x: u64) -> u64
    requires { (W.Width.row ≡ row_of variant) × (from.0 ≤ rounds) × (to.0 ≤ rounds) × (x < 2 ^ width_of variant) }
    ensures { result ≡ registers_at variant (key_number key) from.0 x to.0 }
{
    let tables = Tables::new();
    let machine = Machine::<W> {
        variant,
        key,
        tables: &tables,
        width: PhantomData,
    };
    machine.between(from, to, x)
}

// The same at any variant.
fn registers_between(variant: u8, key: Key, from: RoundPosition, to: RoundPosition, x: u64) -> u64
    requires { (from.0 ≤ rounds) × (to.0 ≤ rounds) × (x < 2 ^ width_of variant) }
    ensures { result ≡ registers_at variant (key_number key) from.0 x to.0 }
{
    match variant {
        2 | 5 => between::<Bits48>(variant, key, from, to, x),
        3 | 6 => between::<Bits64>(variant, key, from, to, x),
        _ => between::<Bits32>(variant, key, from, to, x),
    }
}

// The registers of a block, from one position to another, either way.
pub fn registers_at(
    variant: u8,
    key: Key,
    from: RoundPosition,
    to: RoundPosition,
    registers: u64,
) -> Result<u64, Refusal>
    ensures { outcome result ≡ registers_answer variant (key_number key) from.0 to.0 registers }
{
    let row = katan_variants::row_of(variant)?;
    if katan::ROUNDS < from.0 || katan::ROUNDS < to.0 {
        return Err(Refusal::BadPosition);
    }
    if katan_numbers::too_wide(row.n, registers) {
        return Err(Refusal::BadBlock);
    }
    Ok(registers_between(variant, key, from, to, registers))
}

// IR, ka and kb of the round that starts at a position; zeros at 254 and above, where none does.
pub fn round_input(variant: u8, key: Key, at: RoundPosition) -> RoundInput
    ensures { result ≡ round_input variant (key_number key) at.0 }
{
    let r = usize::from(at.0);
    if katan::ROUND_COUNT <= r {
        return RoundInput {
            ir: 0,
            ka: 0,
            kb: 0,
        };
    }
    let source = katan_keys::source_at(variant, key, at);
    input_of(variant, &Tables::new(), r, source)
}
