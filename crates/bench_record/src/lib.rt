// A record: its fields, read from its bytes and written to them, and the kinds of records.
#![tactic(auto)]

ghost use Rattle.std.specs.Prelude.{◌≡◌, ◌++◌, ◌+◌, ◌-◌, ◌≤◌, take, drop};
ghost use Rattle.katan.specs.Bit.{bytes_of};
ghost use Rattle.bench_record.specs.Fields.{record_length, part, decode};
ghost use Rattle.bench_record.specs.Codec.{record_in, encode};
ghost use Rattle.bench_record.specs.Kinds.{byte_of, ReadAs};

use crate::bytes::bytes_in;
use katan::{Key, Refusal};
use katan_numbers::byte_at;

pub mod bytes;

// The kinds of a record.
#[derive(Clone, Copy, Debug, PartialEq, Eq)]
pub enum Kind {
    Load = 1,
    Forward = 2,
    Back = 3,
    Clear = 4,
}

impl From<Kind> for u8 {
    ghost from_gives = { λ kind byte. byte ≡ byte_of kind };

    fn from(kind: Kind) -> u8 {
        kind as u8
    }
}

// Check 3 of a byte.
impl TryFrom<u8> for Kind {
    type Error = Refusal;

    ghost try_from_gives = { ReadAs };

    #[tactic(auto, unfolding(crate::specs::Fields::kind_of))]
    fn try_from(byte: u8) -> Result<Kind, Refusal> {
        match byte {
            1 => Ok(Kind::Load),
            2 => Ok(Kind::Forward),
            3 => Ok(Kind::Back),
            4 => Ok(Kind::Clear),
            _ => Err(Refusal::BadKind),
        }
    }
}

// Where each field of a record begins: it goes to where the next one does, numbers low byte first.
pub const KIND_AT: usize = 0;

pub const LANE_AT: usize = 1;

pub const COUNT_AT: usize = 2;

pub const GAP_AT: usize = 3;

pub const NUMBER_AT: usize = 4;

pub const MASK_AT: usize = 8;

pub const KEY_AT: usize = 16;

pub const KEY_HIGH_AT: usize = 24;

pub const BLOCK_AT: usize = 26;

pub const REST_AT: usize = 34;

// How many bytes a record has.
pub const LENGTH: usize = 40;

// The fields of a record.
#[derive(Clone, Copy)]
pub struct Record {
    // Any byte, as it was sent: check 3 finds those that are no Kind.
    pub kind: u8,
    pub lane: u8,
    // The load position or the move count.
    pub count: u8,
    // Byte 3, zero in every record.
    pub gap: u8,
    pub number: u32,
    pub mask: u64,
    pub key: Key,
    pub block: u64,
    // Bytes 34 to 39, zero in every record.
    pub rest: u64,
}

// The bytes of a record, to keep.
#[tactic(auto, using(crate::proofs::Parts::record_or_zeros))]
pub fn record_in(bytes: &[u8]) -> [u8; LENGTH]
    ensures { result ≡ record_in bytes.now }
{
    let mut to = [0; LENGTH];
    let n = bytes.len().min(LENGTH);
    to[..n].copy_from_slice(&bytes[..n]);
    to
}

// The number in the bytes from a place on, up to another.
fn word_in(bytes: &[u8], from: usize, to: usize) -> u64
    requires { (from ≤ to) × (to ≤ from + 8) }
    ensures { result ≡ part bytes.now from (to - from) }
{
    katan_numbers::word_of(bytes_in(bytes, from, to - from))
}

// A number written into the bytes from a place on, up to another.
fn put_word(bytes: &mut [u8; LENGTH], from: usize, to: usize, x: u64)
    requires { (from ≤ to) × (to ≤ record_length) }
    ensures { bytes.new ≡ take from bytes.old ++ (bytes_of (to - from) x ++ drop to bytes.old) }
{
    katan_numbers::put_number(x, &mut bytes[from..to]);
}

// The record that bytes say.
pub fn decoded(sent: &[u8]) -> Record
    ensures { result ≡ decode sent.now }
{
    Record {
        kind: byte_at(sent, KIND_AT),
        lane: byte_at(sent, LANE_AT),
        count: byte_at(sent, COUNT_AT),
        gap: byte_at(sent, GAP_AT),
        // Four bytes fit, so that `as` loses nothing, where `try_from` would leave an error to answer.
        number: word_in(sent, NUMBER_AT, MASK_AT) as u32,
        mask: word_in(sent, MASK_AT, KEY_AT),
        key: katan_numbers::key_of(bytes_in(sent, KEY_AT, katan::KEY_BYTES)),
        block: word_in(sent, BLOCK_AT, REST_AT),
        rest: word_in(sent, REST_AT, LENGTH),
    }
}

// The bytes that say a record.
pub fn encoded(fields: Record) -> [u8; LENGTH]
    ensures { result ≡ encode fields }
{
    let mut bytes = [0; LENGTH];
    bytes[KIND_AT] = fields.kind;
    bytes[LANE_AT] = fields.lane;
    bytes[COUNT_AT] = fields.count;
    bytes[GAP_AT] = fields.gap;
    put_word(&mut bytes, NUMBER_AT, MASK_AT, u64::from(fields.number));
    put_word(&mut bytes, MASK_AT, KEY_AT, fields.mask);
    put_word(&mut bytes, KEY_AT, KEY_HIGH_AT, fields.key.low);
    put_word(
        &mut bytes,
        KEY_HIGH_AT,
        BLOCK_AT,
        u64::from(fields.key.high),
    );
    put_word(&mut bytes, BLOCK_AT, REST_AT, fields.block);
    put_word(&mut bytes, REST_AT, LENGTH, fields.rest);
    bytes
}
