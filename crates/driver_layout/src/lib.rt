// The bench and the link as a driver holds them, in bytes. Numbers are low byte first. A bench of another length is read as zeros, a byte past
// the end of a link counts as 0; lent memory of another length is not written to.
#![tactic(auto)]

ghost use Rattle.std.specs.Prelude.{◌≡◌, [], ◌∷◌, length};
ghost use Rattle.katan.specs.Lent.{fitted};
ghost use Rattle.driver_layout.specs.Layout.{key_start, lane_length, bench_length, link_length, loaded_state, position_in, loaded_in, lane_in, bench_in, link_in, read_as, loaded_bytes, lane_bytes, bench_bytes, link_bytes};

use bench::{Bench, Link, Loaded};
use bench_record::LENGTH;
use bench_record::bytes::bytes_in;
use katan::{KEY_BYTES, LANES, RoundPosition, WORD_BYTES};
use katan_numbers::byte_at;

// The bytes of a link's number and total.
const NUMBER_BYTES: usize = 4;

// A lane: its state, its position, its key, its registers.
const STATE_AT: usize = 0;

const POSITION_AT: usize = 1;

const KEY_AT: usize = 2;

const REGISTERS_AT: usize = KEY_AT + KEY_BYTES;

const LANE_LENGTH: usize = REGISTERS_AT + WORD_BYTES;

// A bench: its variant, then its lanes.
const VARIANT_AT: usize = 0;

const LANES_AT: usize = 1;

pub const BENCH_LENGTH: usize = LANES_AT + LANE_LENGTH * LANES;

// A link: last, the total, then the record.
const LAST_AT: usize = 0;

const TOTAL_AT: usize = LAST_AT + NUMBER_BYTES;

const RECORD_AT: usize = TOTAL_AT + NUMBER_BYTES;

pub const LINK_LENGTH: usize = RECORD_AT + LENGTH;

// A lane's state: any byte may stand there, as C hands it in.
const EMPTY: u8 = 0;

const LOADED: u8 = 1;

// The position that bench_in promises of a lane whose state is another (damaged_position in specs/Layout): over 254, so that check 1 finds a fault.
const DAMAGED: u8 = 255;

fn position_in(bytes: &[u8]) -> u8
    ensures { result ≡ position_in bytes.now }
{
    if byte_at(bytes, STATE_AT) == LOADED {
        byte_at(bytes, POSITION_AT)
    } else {
        DAMAGED
    }
}

fn loaded_in(bytes: &[u8]) -> Loaded
    ensures { result ≡ loaded_in bytes.now }
{
    Loaded {
        key: katan_numbers::key_of(bytes_in(bytes, KEY_AT, KEY_BYTES)),
        position: RoundPosition(position_in(bytes)),
        registers: katan_numbers::word_of(bytes_in(bytes, REGISTERS_AT, WORD_BYTES)),
    }
}

fn lane_in(bytes: &[u8]) -> Option<Loaded>
    ensures { result ≡ lane_in bytes.now }
{
    if byte_at(bytes, STATE_AT) == EMPTY {
        None
    } else {
        Some(loaded_in(bytes))
    }
}

fn whole_bench(bytes: &[u8]) -> Bench
    requires { length bytes.now ≡ bench_length }
    ensures { result ≡ bench_in bytes.now }
{
    let variant = bytes[VARIANT_AT];
    let mut slots = [None; LANES];
    // No zip with chunks of the bytes: a proof knows nothing of the slots after it.
    for (i, slot) in slots.iter_mut().enumerate() {
        let at = LANES_AT + LANE_LENGTH * i;
        *slot = lane_in(&bytes[at..at + LANE_LENGTH]);
    }
    Bench { variant, slots }
}

// The length is looked at once: then a lane has its bytes, and the compiler loads words.
pub fn bench_in(bytes: &[u8]) -> Bench
    ensures { result ≡ bench_in (read_as bench_length bytes.now) }
{
    if bytes.len() == BENCH_LENGTH {
        whole_bench(bytes)
    } else {
        let zeros = [0u8; BENCH_LENGTH];
        whole_bench(&zeros)
    }
}

pub fn link_in(bytes: &[u8]) -> Link
    ensures { result ≡ link_in bytes.now }
{
    // Four bytes each: they fit, as proved.
    let last = katan_numbers::word_of(bytes_in(bytes, LAST_AT, NUMBER_BYTES)) as u32;
    let total = katan_numbers::word_of(bytes_in(bytes, TOTAL_AT, NUMBER_BYTES)) as u32;
    Link {
        last,
        bytes: bench_record::record_in(bytes_in(bytes, RECORD_AT, LENGTH)),
        total,
    }
}

fn put_loaded(h: Loaded, out: &mut [u8])
    requires { length out.old ≡ lane_length }
    ensures { out.new ≡ loaded_bytes h }
{
    let (head, rest) = out.split_at_mut(KEY_AT);
    let (key, registers) = rest.split_at_mut(KEY_BYTES);
    head[STATE_AT] = LOADED;
    head[POSITION_AT] = h.position.0;
    katan_numbers::put_key(h.key, key);
    katan_numbers::put_number(h.registers, registers);
}

// The other bytes of an empty lane are kept.
fn put_lane(lane: Option<Loaded>, out: &mut [u8])
    requires { length out.old ≡ lane_length }
    ensures { out.new ≡ lane_bytes lane out.old }
{
    match lane {
        None => out[STATE_AT] = EMPTY,
        Some(h) => put_loaded(h, out),
    }
}

fn write_bench(bench: Bench, out: &mut [u8])
    requires { length out.old ≡ bench_length }
    ensures { out.new ≡ bench_bytes bench out.old }
{
    out[VARIANT_AT] = bench.variant;
    // No zip with chunks of the output: of what is written through them only the lengths are known.
    for (i, lane) in bench.slots.iter().enumerate() {
        let at = LANES_AT + LANE_LENGTH * i;
        put_lane(*lane, &mut out[at..at + LANE_LENGTH]);
    }
}

pub fn put_bench(bench: Bench, out: &mut [u8])
    ensures { out.new ≡ fitted bench_length (bench_bytes bench out.old) out.old }
{
    if out.len() == BENCH_LENGTH {
        write_bench(bench, out);
    }
}

fn write_link(link: Link, out: &mut [u8])
    requires { length out.old ≡ link_length }
    ensures { out.new ≡ link_bytes link }
{
    let (last, rest) = out.split_at_mut(NUMBER_BYTES);
    let (total, record) = rest.split_at_mut(NUMBER_BYTES);
    katan_numbers::put_number(u64::from(link.last), last);
    katan_numbers::put_number(u64::from(link.total), total);
    record.copy_from_slice(&link.bytes);
}

pub fn put_link(link: Link, out: &mut [u8])
    ensures { out.new ≡ fitted link_length (link_bytes link) out.old }
{
    if out.len() == LINK_LENGTH {
        write_link(link, out);
    }
}
