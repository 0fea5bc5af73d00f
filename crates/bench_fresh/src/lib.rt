// A fresh bench and its link, and opening one.
#![tactic(auto)]

ghost use Rattle.std.specs.Prelude.{◌≡◌, [], ◌∷◌};
ghost use Rattle.katan.specs.Checks.{value, outcome, checked, variant_check};
ghost use Rattle.bench.specs.Bench.{fresh_bench, fresh_link};

use bench::{Bench, Link};
use bench_record::LENGTH;
use katan::{LANES, Refusal};

pub fn fresh_link() -> Link
    ensures { result ≡ fresh_link }
{
    Link {
        last: 0,
        bytes: [0; LENGTH],
        total: 0,
    }
}

// A bench of empty lanes, for any variant number: check 1 of a later call refuses one that is not 1 to 6.
pub fn fresh_bench(variant: u8) -> Bench
    ensures { result ≡ fresh_bench variant }
{
    Bench {
        variant,
        slots: [None; LANES],
    }
}

// A fresh bench with its link, and what opening them answers. They stand beside the answer, and not in it: a refused opening gives them too.
#[derive(Clone, Copy)]
pub struct Opening {
    pub bench: Bench,
    pub link: Link,
    pub answer: Result<(), Refusal>,
}

fn variant_fault(variant: u8) -> Result<(), Refusal>
    ensures { outcome result ≡ checked (variant_check variant ∷ []) (value tt) }
{
    katan_variants::row_of(variant)?;
    Ok(())
}

pub fn open(variant: u8) -> Opening
    ensures { (result.bench ≡ fresh_bench variant) × (result.link ≡ fresh_link)
        × (outcome result.answer ≡ checked (variant_check variant ∷ []) (value tt)) }
{
    Opening {
        bench: fresh_bench(variant),
        link: fresh_link(),
        answer: variant_fault(variant),
    }
}
