// The bench of lanes and the link: types, and, in specs/, what an arrival and a read make of them.
#![tactic(auto)]

use bench_record::LENGTH;
use katan::{Key, LANES, Refusal, RoundPosition};

// What a loaded lane holds: the key, and the registers at its position.
#[derive(Clone, Copy)]
pub struct Loaded {
    pub key: Key,
    pub position: RoundPosition,
    pub registers: u64,
}

// An empty lane is `None`.
#[derive(Clone, Copy)]
pub struct Bench {
    pub variant: u8,
    pub slots: [Option<Loaded>; LANES],
}

// The last counted number, 0 when fresh; its record and its total.
#[derive(Clone, Copy)]
pub struct Link {
    pub last: u32,
    pub bytes: [u8; LENGTH],
    pub total: u32,
}

// What an arrival that meets no fault answers: number and total.
#[derive(Clone, Copy)]
pub enum Reply {
    Done { number: u32, total: u32 },
    Again { number: u32, total: u32 },
}

// What an arrival leaves, and answers: a reply, or the first fault found. Bench and link stand beside the reply, since a refused arrival gives them back too.
#[derive(Clone, Copy)]
pub struct ArrivalResult {
    pub bench: Bench,
    pub link: Link,
    pub reply: Result<Reply, Refusal>,
}

// The same where the link is lent.
#[derive(Clone, Copy)]
pub struct LentArrivalResult {
    pub bench: Bench,
    pub reply: Result<Reply, Refusal>,
}

// What a loaded lane shows.
#[derive(Clone, Copy)]
pub struct Reading {
    pub position: RoundPosition,
    pub registers: u64,
}
