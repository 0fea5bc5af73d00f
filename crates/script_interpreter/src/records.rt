// The record that a record line names, unused fields zero.
ghost use Rattle.std.specs.Prelude.{◌≡◌};
ghost use Rattle.bench_record.specs.Codec.{encode, load_record, move_record};
ghost use Rattle.bench_record.specs.Kinds.{byte_of};

use bench_record::{Kind, LENGTH, Record, encoded};
use katan::Key;

pub fn load_record(number: u32, lane: u8, position: u8, key: Key, block: u64) -> [u8; LENGTH]
    ensures { result ≡ encode (load_record number lane position key block) }
{
    encoded(Record {
        kind: u8::from(Kind::Load),
        lane,
        count: position,
        gap: 0,
        number,
        mask: 0,
        key,
        block,
        rest: 0,
    })
}

// A move or a clear.
pub fn move_record(kind: Kind, number: u32, mask: u64, count: u8) -> [u8; LENGTH]
    ensures { result ≡ encode (move_record (byte_of kind) number mask count) }
{
    encoded(Record {
        kind: u8::from(kind),
        lane: 0,
        count,
        gap: 0,
        number,
        mask,
        key: Key { low: 0, high: 0 },
        block: 0,
        rest: 0,
    })
}
