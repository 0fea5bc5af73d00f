// The stream of a message, 64 blocks at a time.
ghost use Rattle.std.specs.Prelude.{◌≡◌, false, ℕ, ◌+◌, ◌-◌, ◌*◌, ◌%◌, ◌^◌, ◌<◌, ◌≤◌, get_or, length};
ghost use Rattle.katan.specs.Bit.{xor, number_in};
ghost use Rattle.katan.specs.Checks.{variant_check};
ghost use Rattle.katan.specs.Sizes.{lane_count, word_bytes, key_bytes};
ghost use Rattle.katan.specs.Variant.{width_of};
ghost use Rattle.katan.specs.Machine.{encryption};
ghost use Rattle.katan.specs.inner.Within.{Entries};
ghost use Rattle.lanes.specs.Many.{block_key};
ghost use Rattle.lanes_keystream.specs.Stream.{block_bytes, block_count, longest_message, streamed};
ghost use Rattle.lanes_keystream.specs.inner.Batch.{batch_length, Written, byte_of};

use katan::{KEY_BYTES, LANES, WORD_BYTES};
use lanes::Direction;

// A block is written as a word.
const BATCH_LENGTH: usize = WORD_BYTES * LANES;

const BATCH_KEYS: usize = KEY_BYTES * LANES;

// The one key, for each block of a batch.
fn repeated(key: &[u8]) -> [u8; BATCH_KEYS]
    requires { length key.now ≡ key_bytes }
    ensures { Entries (λ j. get_or key.now (j % key_bytes) 0) (key_bytes * lane_count) result }
{
    let mut keys = [0u8; BATCH_KEYS];
    // By index: of what is written through chunks_exact_mut only the lengths are known.
    for i in 0..LANES {
        let at = KEY_BYTES * i;
        let end = at + KEY_BYTES;
        keys[at..end].copy_from_slice(key);
    }
    keys
}

// The numbers from `start + first` on.
fn put_numbers(start: u64, first: usize, out: &mut [u64])
    requires { (start + (first + length out.old) ≤ 2 ^ 64) × (first ≤ longest_message) }
    ensures { Entries (λ i. start + (first + i)) (length out.old) out.new }
{
    for (i, number) in out.iter_mut().enumerate() {
        // as: no From leads from usize.
        *number = start + (first + i) as u64;
    }
}

// The blocks' bytes, low byte first. Each block is written as a word, and the next one over the bytes that are not its own.
fn put_bytes(size: usize, blocks: &[u64], out: &mut [u8])
    requires { (1 ≤ size) × (size ≤ word_bytes) × (length blocks.now ≡ lane_count) × (length out.old ≡ batch_length) }
    ensures { Entries (byte_of size (λ i. get_or blocks.now i 0)) (size * lane_count) out.new }
{
    for (i, block) in blocks.iter().enumerate() {
        let at = size * i;
        let end = at + WORD_BYTES;
        katan_numbers::put_number(*block, &mut out[at..end]);
    }
}

// The stream of `count` blocks from block `first` on. The other blocks of the batch are 0, which is a block at every width; nobody sees what becomes of them.
fn put_batch(
    variant: u8,
    size: usize,
    keys: &[u8],
    start: u64,
    first: usize,
    count: usize,
    out: &mut [u8],
)
    requires variant_value { ((variant_check variant).fault ≡ false) × (size ≡ block_bytes variant) × (length keys.now ≡ key_bytes * lane_count) × (length out.old ≡ batch_length) }
    requires count_le_lane_count { (count ≤ lane_count) × (start + (first + count) ≤ 2 ^ width_of variant) × (first ≤ longest_message) }
    ensures { Entries (byte_of size (λ i. encryption variant (block_key keys.now i) (start + (first + i)))) (size * count) out.new }
{
    let mut numbers = [0u64; LANES];
    put_numbers(start, first, &mut numbers[..count]);
    let mut encrypted = [0u64; LANES];
    // No check finds a fault: 64 blocks, each below 2^n, and 64 keys.
    let _ = lanes::many(Direction::Encrypt, variant, keys, &numbers, &mut encrypted);
    put_bytes(size, &encrypted, out);
}

// Combines the message from `at` to `end` with the stream. The index is the message's and the output's, and that of the stream from `at` on.
// By index: of what iter_mut().zip lends nothing is known after the loop.
fn combine(stream: &[u8], at: usize, end: usize, message: &[u8], out: &mut [u8])
    requires { (at ≤ end) × (end ≤ length message.now) × (end ≤ length out.old) × (end ≤ at + length stream.now) }
    ensures { Written at end (λ j. xor (get_or message.now j 0) (get_or stream.now (j - at) 0)) out.old out.new }
{
    for j in at..end {
        out[j] = message[j] ^ stream[j - at];
    }
}

// All of the message, block after block. A batch has 64 blocks, and the last the rest. message and out are the public call's, and go
// through as they came.
pub fn combine_all(
    variant: u8,
    size: usize,
    blocks: usize,
    key: &[u8],
    start: u64,
    message: &[u8],
    out: &mut [u8],
)
    requires variant_value { ((variant_check variant).fault ≡ false) × (size ≡ block_bytes variant) × (blocks ≡ block_count variant (length message.now)) × (start + blocks ≤ 2 ^ width_of variant) }
    requires key_len { (length key.now ≡ key_bytes) × (length message.now ≤ longest_message) × (length out.old ≡ length message.now) }
    ensures { out.new ≡ streamed variant (number_in key.now) start message.now }
{
    let keys = repeated(key);
    let mut stream = [0u8; BATCH_LENGTH];
    for batch in 0..blocks.div_ceil(LANES) {
        let first = LANES * batch;
        let count = LANES.min(blocks - first);
        put_batch(variant, size, &keys, start, first, count, &mut stream);
        let at = size * first;
        let end = message.len().min(at + size * count);
        combine(&stream, at, end, message, out);
    }
}
