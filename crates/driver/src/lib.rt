// The calls of a driver in C or Rust, for each a function of one of the `driver_` crates with the same promise. Each but `katan_version` and
// `katan_cycles` returns 0 or the number of the first fault found, and a refused call leaves every lent output as it was, but for a preview's room.
// Names, and parameters one by one, are those of katan_bench.h.
#![tactic(auto)]

ghost use Rattle.std.specs.Prelude.{◌≡◌};
ghost use Rattle.katan.specs.Lent.{status_of, lent_after};
ghost use Rattle.lanes.specs.Many.{many_answer, many_of};
ghost use Rattle.lanes.specs.declared.Direction.TheVariants.{Encrypt, Decrypt};
ghost use Rattle.lanes_keystream.specs.Stream.{stream_answer, stream_of};
ghost use Rattle.katan_rate.specs.Rate.{cycles_of};
ghost use Rattle.driver_ciphers.specs.Calls.{interface_version, word, encrypt_call, decrypt_call, rate_call, clock_words, origin_call};
ghost use Rattle.driver_smudged.specs.Calls.{known_words, smudged_call, join_call, joined_words, joined_bytes};
ghost use Rattle.driver_reads.specs.Calls.{response_words, read_call, shown_word, screen_call, screened_numbers};
ghost use Rattle.driver_bench.specs.Calls.{open_call, opened_bench, opened_link, arrive_call, arrived_bench, arrived_link, arrived_answer, preview_call, previewed_answer, previewed_room};
ghost use Rattle.driver_replay.specs.Calls.{replay_call, replayed_bench, replayed_answers};

// The version of these calls.
#[unsafe(no_mangle)]
pub extern "C" fn katan_version() -> u32
    ensures { result ≡ interface_version }
{
    driver_ciphers::version()
}

// Encrypts a block into the one word of `out`.
#[unsafe(no_mangle)]
pub extern "C" fn katan_encrypt(variant: u8, key: &[u8], block: u64, out: &mut [u64]) -> u8
    ensures value { result ≡ status_of (encrypt_call variant key.now block out.old) }
    ensures out_after { out.new ≡ lent_after word (encrypt_call variant key.now block out.old) out.old }
{
    driver_ciphers::encrypt(variant, key, block, out)
}

// Decrypts a block into the one word of `out`.
#[unsafe(no_mangle)]
pub extern "C" fn katan_decrypt(variant: u8, key: &[u8], block: u64, out: &mut [u64]) -> u8
    ensures value { result ≡ status_of (decrypt_call variant key.now block out.old) }
    ensures out_after { out.new ≡ lent_after word (decrypt_call variant key.now block out.old) out.old }
{
    driver_ciphers::decrypt(variant, key, block, out)
}

// Encrypts 1 to 64 blocks, block i with the key in bytes 10i to 10i + 9.
#[unsafe(no_mangle)]
pub extern "C" fn katan_encrypt_many(
    variant: u8,
    keys: &[u8],
    blocks: &[u64],
    out: &mut [u64],
) -> u8
    ensures value { result ≡ status_of (many_answer variant keys.now blocks.now out.old) }
    ensures out_after { out.new ≡ many_of Encrypt variant keys.now blocks.now out.old }
{
    driver_ciphers::encrypt_many(variant, keys, blocks, out)
}

// Decrypts 1 to 64 blocks.
#[unsafe(no_mangle)]
pub extern "C" fn katan_decrypt_many(
    variant: u8,
    keys: &[u8],
    blocks: &[u64],
    out: &mut [u64],
) -> u8
    ensures value { result ≡ status_of (many_answer variant keys.now blocks.now out.old) }
    ensures out_after { out.new ≡ many_of Decrypt variant keys.now blocks.now out.old }
{
    driver_ciphers::decrypt_many(variant, keys, blocks, out)
}

// Encrypts or decrypts a message with the stream of the blocks from `start` on.
#[unsafe(no_mangle)]
pub extern "C" fn katan_keystream(
    variant: u8,
    key: &[u8],
    start: u64,
    message: &[u8],
    out: &mut [u8],
) -> u8
    ensures value { result ≡ status_of (stream_answer variant key.now start message.now out.old) }
    ensures out_after { out.new ≡ stream_of variant key.now start message.now out.old }
{
    driver_ciphers::keystream(variant, key, start, message, out)
}

// fa and fb of a clock, followed back to the block, and the block bits looked up, into the three words of `out`.
#[unsafe(no_mangle)]
pub extern "C" fn katan_origin(
    variant: u8,
    key: &[u8],
    block: u64,
    clock: u64,
    out: &mut [u64],
) -> u8
    ensures value { result ≡ status_of (origin_call variant key.now block clock out.old) }
    ensures out_after { out.new ≡ lent_after clock_words (origin_call variant key.now block clock out.old) out.old }
{
    driver_ciphers::origin(variant, key, block, clock, out)
}

// What is known of the registers at a position, with the block in them at position 0, into the two words of `out`: the bits known as 1, then those known
// as 0.
#[unsafe(no_mangle)]
pub extern "C" fn katan_smudged(
    variant: u8,
    ones: u64,
    zeros: u64,
    key_ones: &[u8],
    key_zeros: &[u8],
    position: u64,
    out: &mut [u64],
) -> u8
    ensures value { result ≡ status_of (smudged_call variant (record { ones = ones; zeros = zeros }) key_ones.now key_zeros.now position out.old) }
    ensures out_after { out.new ≡ lent_after known_words (smudged_call variant (record { ones = ones; zeros = zeros }) key_ones.now key_zeros.now position out.old) out.old }
{
    driver_smudged::smudged(variant, ones, zeros, key_ones, key_zeros, position, out)
}

// What either of two sheets of one block knows: of the block into the two words of `out`, of the key into the 20 bytes of `key_out`, each time the bits
// known as 1 first.
#[unsafe(no_mangle)]
pub extern "C" fn katan_join(
    variant: u8,
    ones: u64,
    zeros: u64,
    key_ones: &[u8],
    key_zeros: &[u8],
    other_ones: u64,
    other_zeros: u64,
    other_key_ones: &[u8],
    other_key_zeros: &[u8],
    out: &mut [u64],
    key_out: &mut [u8],
) -> u8
    ensures { (result ≡ status_of (join_call variant (record { ones = ones; zeros = zeros }) key_ones.now key_zeros.now (record { ones = other_ones; zeros = other_zeros }) other_key_ones.now other_key_zeros.now out.old key_out.old))
        × (out.new ≡ lent_after joined_words (join_call variant (record { ones = ones; zeros = zeros }) key_ones.now key_zeros.now (record { ones = other_ones; zeros = other_zeros }) other_key_ones.now other_key_zeros.now out.old key_out.old) out.old)
        × (key_out.new ≡ lent_after joined_bytes (join_call variant (record { ones = ones; zeros = zeros }) key_ones.now key_zeros.now (record { ones = other_ones; zeros = other_zeros }) other_key_ones.now other_key_zeros.now out.old key_out.old) key_out.old) }
{
    driver_smudged::join(
        variant,
        ones,
        zeros,
        key_ones,
        key_zeros,
        other_ones,
        other_zeros,
        other_key_ones,
        other_key_zeros,
        out,
        key_out,
    )
}

// The cycles that a number of blocks takes.
#[unsafe(no_mangle)]
pub extern "C" fn katan_cycles(blocks: u32) -> u64
    ensures { result ≡ cycles_of blocks }
{
    driver_ciphers::cycles(blocks)
}

// The bit rate at a clock rate, into the one word of `out`.
#[unsafe(no_mangle)]
pub extern "C" fn katan_bit_rate(variant: u8, hertz: u64, out: &mut [u64]) -> u8
    ensures value { result ≡ status_of (rate_call variant hertz out.old) }
    ensures out_after { out.new ≡ lent_after word (rate_call variant hertz out.old) out.old }
{
    driver_ciphers::bit_rate(variant, hertz, out)
}

// Opens a fresh bench with its fresh link. A lane's bytes but for its state are kept.
#[unsafe(no_mangle)]
pub extern "C" fn katan_open(variant: u8, bench: &mut [u8], link: &mut [u8]) -> u8
    ensures { (result ≡ status_of (open_call variant bench.old link.old))
        × (bench.new ≡ opened_bench variant bench.old link.old)
        × (link.new ≡ opened_link variant bench.old link.old) }
{
    driver_bench::open(variant, bench, link)
}

// A record of any bytes and length arrives.
#[unsafe(no_mangle)]
pub extern "C" fn katan_arrive(
    bench: &mut [u8],
    link: &mut [u8],
    sent: &[u8],
    answer: &mut [u32],
) -> u8
    ensures { (result ≡ status_of (arrive_call bench.old link.old sent.now answer.old))
        × (bench.new ≡ arrived_bench bench.old link.old sent.now answer.old)
        × (link.new ≡ arrived_link bench.old link.old sent.now answer.old)
        × (answer.new ≡ arrived_answer bench.old link.old sent.now answer.old) }
{
    driver_bench::arrive(bench, link, sent, answer)
}

// What a record would be answered, and, in the room, the memory of the bench that it would leave, on a refusal the bench's own; where bench or room has
// another length the room is left alone.
#[unsafe(no_mangle)]
pub extern "C" fn katan_preview(
    bench: &[u8],
    link: &[u8],
    sent: &[u8],
    answer: &mut [u32],
    room: &mut [u8],
) -> u8
    ensures { (result ≡ status_of (preview_call bench.now link.now sent.now answer.old room.old))
        × (answer.new ≡ previewed_answer bench.now link.now sent.now answer.old room.old)
        × (room.new ≡ previewed_room bench.now link.now sent.now answer.old room.old) }
{
    driver_bench::preview(bench, link, sent, answer, room)
}

// Reads a lane of any number.
#[unsafe(no_mangle)]
pub extern "C" fn katan_read(bench: &[u8], lane: u64, answer: &mut [u64]) -> u8
    ensures value { result ≡ status_of (read_call bench.now lane answer.old) }
    ensures answer_after { answer.new ≡ lent_after response_words (read_call bench.now lane answer.old) answer.old }
{
    driver_reads::read(bench, lane, answer)
}

// Reads every lane of a mask: the 64 words of `out` are the registers of those that are loaded, and 0 for all others, and the one word of `shown` is the
// mask of those.
#[unsafe(no_mangle)]
pub extern "C" fn katan_screen(bench: &[u8], mask: u64, out: &mut [u64], shown: &mut [u64]) -> u8
    ensures { (result ≡ status_of (screen_call bench.now mask out.old shown.old))
        × (out.new ≡ screened_numbers bench.now mask out.old shown.old)
        × (shown.new ≡ lent_after shown_word (screen_call bench.now mask out.old shown.old) shown.old) }
{
    driver_reads::screen(bench, mask, out, shown)
}

// Runs a whole list of calls on a fresh bench and link.
#[unsafe(no_mangle)]
pub extern "C" fn katan_replay(
    variant: u8,
    calls: &[u8],
    bench: &mut [u8],
    answers: &mut [u8],
) -> u8
    ensures { (result ≡ status_of (replay_call variant calls.now bench.old answers.old))
        × (bench.new ≡ replayed_bench variant calls.now bench.old answers.old)
        × (answers.new ≡ replayed_answers variant calls.now bench.old answers.old) }
{
    driver_replay::replay(variant, calls, bench, answers)
}
