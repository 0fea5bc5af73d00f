// Checks 3 to 8 of a record's fields, kind by kind, each in the order of its numbers: the first fault found is answered.
#![tactic(auto, using(std::proofs::lemmas::Bool::Decides::nat_tests), unfolding(bench_record::specs::Checks::unknown, bench_record::specs::Checks::unused, bench_record::specs::Checks::wrong_count, bench_record::specs::Checks::none_named))]

ghost use Rattle.std.specs.Prelude.{◌≡◌, ℕ, true, false, MatchResult};
ghost use Rattle.katan.specs.Checks.{value, outcome, checked};
ghost use Rattle.bench_record.specs.Fields.{load, forward, clear};
ghost use Rattle.bench_record.specs.Checks.{zero_bytes, load_fields, checks_of, field_checks};

use bench_record::{Kind, Record};
use katan::{LANES, Refusal};

// Whether a byte that is zero in every record is not.
fn zero_bytes(fields: Record) -> bool
    ensures { result ≡ zero_bytes fields }
{
    fields.gap != 0 || fields.rest != 0
}

// Whether a field that only a load uses is not zero.
fn load_fields(fields: Record) -> bool
    ensures { result ≡ load_fields fields }
{
    fields.lane != 0 || fields.key.low != 0 || fields.key.high != 0 || fields.block != 0
}

// One check: a fault is answered with its refusal.
fn check(fault: bool, refusal: Refusal) -> Result<(), Refusal>
    ensures { MatchResult result (λ _. fault ≡ false) (λ e. (fault ≡ true) × (e ≡ refusal)) }
{
    if fault { Err(refusal) } else { Ok(()) }
}

// A load: the mask is unused.
fn load_fault(variant: u8, fields: Record) -> Result<(), Refusal>
    ensures { outcome result ≡ checked (checks_of load variant fields) (value tt) }
{
    let wide = katan_numbers::too_wide(katan_variants::width_of(variant), fields.block);
    check(
        zero_bytes(fields) || fields.mask != 0,
        Refusal::FieldNotZero,
    )?;
    check(LANES <= usize::from(fields.lane), Refusal::BadLane)?;
    check(katan::ROUNDS < fields.count, Refusal::BadPosition)?;
    check(wide, Refusal::BadBlock)
}

// A move, either way: once check 4 finds no fault, lane and block are zero, so 5 and 7 find none on any bench.
fn move_fault(fields: Record) -> Result<(), Refusal>
    ensures { (v : ℕ) → outcome result ≡ checked (checks_of forward v fields) (value tt) }
{
    check(
        zero_bytes(fields) || load_fields(fields),
        Refusal::FieldNotZero,
    )?;
    check(
        fields.count == 0 || katan::ROUNDS < fields.count,
        Refusal::BadPosition,
    )?;
    check(fields.mask == 0, Refusal::EmptyMask)
}

// A clear: as a move, but its count is unused.
fn clear_fault(fields: Record) -> Result<(), Refusal>
    ensures { (v : ℕ) → outcome result ≡ checked (checks_of clear v fields) (value tt) }
{
    check(
        zero_bytes(fields) || fields.count != 0 || load_fields(fields),
        Refusal::FieldNotZero,
    )?;
    check(fields.mask == 0, Refusal::EmptyMask)
}

// Checks 3 to 8 of a record on a bench of a variant: the kind chooses those of its fields. A match, since each kind's checks take other arguments.
pub fn field_fault(variant: u8, fields: Record) -> Result<(), Refusal>
    ensures { outcome result ≡ checked (field_checks variant fields) (value tt) }
{
    match Kind::try_from(fields.kind)? {
        Kind::Load => load_fault(variant, fields),
        Kind::Forward | Kind::Back => move_fault(fields),
        Kind::Clear => clear_fault(fields),
    }
}
