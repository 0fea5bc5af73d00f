// The checks of an arrival, in their order: the first fault found is answered.
#![tactic(auto)]

ghost use Rattle.std.specs.Prelude.{◌≡◌, ℕ, [], ◌∷◌};
ghost use Rattle.katan.specs.Checks.{value, checked};
ghost use Rattle.katan.specs.Variant.{width_of};
ghost use Rattle.bench_record.specs.Fields.{decode};
ghost use Rattle.bench.specs.Checks.{lane_fault, any_lane_fault, bench_check, turn_checks, turn_of, decision};
ghost use Rattle.bench.specs.Bench.{lane_view, lanes_of, bench_view, held_check};
ghost use Rattle.bench_checks.specs.Decision.{decision_outcome};

use bench::{Bench, Link, Loaded};
use bench_fields::field_fault;
use bench_record::{LENGTH, Record};
use katan::Refusal;

// Check 1 of a lane, on a bench of any variant of width n.
#[tactic(auto, using(std::proofs::lemmas::Bool::Decides::nat_tests), unfolding(bench::specs::Checks::lane_fault))]
fn lane_fault(n: usize, lane: Option<Loaded>) -> bool
    ensures { (v : ℕ) → n ≡ width_of v → result ≡ lane_fault v (lane_view lane) }
{
    match lane {
        None => false,
        Some(h) => katan::ROUNDS < h.position.0 || katan_numbers::too_wide(n, h.registers),
    }
}

fn any_lane_fault(bench: Bench, n: usize) -> bool
    ensures { (v : ℕ) → n ≡ width_of v → result ≡ any_lane_fault v (lanes_of bench) }
{
    bench.slots.iter().any(|lane| lane_fault(n, *lane))
}

// Check 1 of one lane.
#[tactic(auto, using(katan::proofs::Booleans::or_false), unfolding(bench::specs::Checks::any_lane_fault))]
pub fn bad_lane(variant: u8, lane: Option<Loaded>) -> bool
    ensures { result ≡ (bench_check variant (lane_view lane ∷ [])).fault }
{
    match katan_variants::row_of(variant) {
        Ok(row) => lane_fault(row.n, lane),
        Err(_) => true,
    }
}

// Check 1: a bench that is passed in may hold anything.
pub fn bad_bench(bench: Bench) -> bool
    ensures { result ≡ (held_check bench).fault }
{
    match katan_variants::row_of(bench.variant) {
        Ok(row) => any_lane_fault(bench, row.n),
        Err(_) => true,
    }
}

// What a record that meets no fault is.
#[derive(Clone, Copy)]
pub enum Turn {
    Counts,
    Repeats,
}

// A record's fields, also of one that is refused, and what the checks decide of it: its turn, or the first fault found.
#[derive(Clone, Copy)]
pub struct CheckedRecord {
    pub fields: Record,
    pub decision: Result<Turn, Refusal>,
}

// Checks 9 and 10, and whose turn it is.
#[tactic(auto, using(bench_record::proofs::Same::same_by_pairs))]
fn turn_of(link: Link, fields: Record, sent: &[u8]) -> Result<Turn, Refusal>
    requires { fields ≡ decode sent.now }
    ensures { decision_outcome result ≡ checked (turn_checks link.last link.bytes sent.now) (value (turn_of link.last sent.now)) }
{
    if link.last.checked_add(1) == Some(fields.number) {
        return Ok(Turn::Counts);
    }
    // A fresh link has none to repeat.
    if link.last == 0 || fields.number != link.last {
        return Err(Refusal::OutOfTurn);
    }
    if link.bytes.as_slice() == sent {
        Ok(Turn::Repeats)
    } else {
        Err(Refusal::OtherBytes)
    }
}

// Checks 1, 2, 9, 10, 3 to 8: a fault of turn comes before one of form.
fn first_fault(bench: Bench, link: Link, fields: Record, sent: &[u8]) -> Result<Turn, Refusal>
    requires { fields ≡ decode sent.now }
    ensures { decision_outcome result ≡ decision (bench_view bench link) sent.now }
{
    if bad_bench(bench) {
        return Err(Refusal::BadVariant);
    }
    if sent.len() != LENGTH {
        return Err(Refusal::BadLength);
    }
    let turn = turn_of(link, fields, sent)?;
    field_fault(bench.variant, fields)?;
    Ok(turn)
}

// A record is decoded here and nowhere else on its way.
pub fn decided(bench: Bench, link: Link, sent: &[u8]) -> CheckedRecord
    ensures { (result.fields ≡ decode sent.now) × (decision_outcome result.decision ≡ decision (bench_view bench link) sent.now) }
{
    let fields = bench_record::decoded(sent);
    CheckedRecord {
        fields,
        decision: first_fault(bench, link, fields, sent),
    }
}
