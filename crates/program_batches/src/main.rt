// Works random batches of every length, both ways, for each variant, and compares each result with a call for its block alone;
// then calls that are refused. A line for each batch and call, with all outputs in one number.
#![tactic(auto)]

ghost use Rattle.std.specs.Prelude.{◌<◌, ◌≤◌};

use katan::Refusal;
use lanes::Direction;
use std::io;

// Xorshift.
fn next(x: u64) -> u64 {
    let a = x ^ (x << 13);
    let b = a ^ (a >> 7);
    b ^ (b << 17)
}

fn key_bytes(seed: u64) -> [u8; 640] {
    let mut bytes = [0u8; 640];
    let mut x = seed;
    for byte in bytes.iter_mut() {
        x = next(x);
        // A remainder fits a byte.
        *byte = ((x >> 33) % 256) as u8;
    }
    bytes
}

fn block_values(seed: u64, unused: usize) -> [u64; 64]
    requires { unused < 64 }
{
    let mut blocks = [0u64; 64];
    let mut x = seed;
    for block in blocks.iter_mut() {
        x = next(x);
        *block = x >> unused;
    }
    blocks
}

// The bits of a 64-bit number that a variant's blocks do not use.
fn unused_bits(variant: u8) -> usize
    ensures { result < 64 }
{
    match variant {
        1 | 4 => 32,
        2 | 5 => 16,
        _ => 0,
    }
}

fn one_block(direction: Direction, variant: u8, key: &[u8], block: u64) -> Result<u64, Refusal> {
    match direction {
        Direction::Encrypt => katan_cipher::encrypt(variant, key, block),
        Direction::Decrypt => katan_cipher::decrypt(variant, key, block),
    }
}

// Whether the results are those of one call for each block.
fn agree(direction: Direction, variant: u8, keys: &[u8], blocks: &[u64], out: &[u64]) -> bool {
    keys.chunks_exact(10).zip(blocks).zip(out).all(|((key, block), x)| {
        let alone = one_block(direction, variant, key, *block);
        alone == Ok(*x)
    })
}

// All outputs in one number, in their order.
fn digest(out: &[u64]) -> u64 {
    out.iter().fold(0, |h, x| ((h << 1) | (h >> 63)) ^ *x)
}

fn print_digest(rt: &HostRuntime, out: &[u64]) -> io::Result<()> {
    let all = digest(out);
    println!(rt; " {all:016x}")
}

// Direction is of lanes, which prints nothing.
fn letter(direction: Direction) -> &'static str {
    match direction {
        Direction::Encrypt => "e",
        Direction::Decrypt => "d",
    }
}

fn direction_of(k: usize) -> Direction {
    if k < 384 {
        Direction::Encrypt
    } else {
        Direction::Decrypt
    }
}

// Batch k: 64 lengths for each variant, 6 variants each way.
fn batch(rt: &HostRuntime, k: usize) -> io::Result<()>
    requires { k < 768 }
{
    let n = k % 64 + 1;
    // A remainder fits a byte.
    let variant = (k / 64 % 6 + 1) as u8;
    let direction = direction_of(k);
    // std has no From from usize.
    let seed = k as u64;
    let keys = key_bytes(seed + 1);
    let blocks = block_values(seed + 1001, unused_bits(variant));
    let mut out = [0u64; 64];
    let answer = lanes::many(
        direction,
        variant,
        &keys[..10 * n],
        &blocks[..n],
        &mut out[..n],
    );
    let letter = letter(direction);
    print!(rt; "{letter} {variant} {n}")?;
    if answer.is_err() || !agree(direction, variant, &keys[..10 * n], &blocks[..n], &out[..n]) {
        print!(rt; " differs")?;
    }
    print_digest(rt, &out)
}

// A call with zero keys and equal blocks, on outputs that are all 7.
fn call(
    rt: &HostRuntime,
    variant: u8,
    bytes: usize,
    count: usize,
    results: usize,
    block: u64,
) -> io::Result<()>
    requires { (bytes ≤ 650) × (count ≤ 65) × (results ≤ 65) }
{
    let keys = [0u8; 650];
    let blocks = [block; 65];
    let mut out = [7u64; 65];
    let answer = lanes::many(
        Direction::Encrypt,
        variant,
        &keys[..bytes],
        &blocks[..count],
        &mut out[..results],
    );
    match answer {
        Ok(()) => print!(rt; "done")?,
        Err(refusal) => print!(rt; "{refusal}")?,
    }
    print_digest(rt, &out)
}

fn main(rt: HostRuntime) -> io::Result<()> {
    for k in 0..768 {
        batch(&rt, k)?;
    }
    call(&rt, 0, 0, 0, 1, 0x1_0000_0000)?;
    call(&rt, 7, 10, 1, 1, 0)?;
    call(&rt, 1, 0, 0, 0, 0)?;
    call(&rt, 1, 650, 65, 65, 0)?;
    call(&rt, 1, 9, 1, 1, 0x1_0000_0000)?;
    call(&rt, 1, 20, 1, 1, 0)?;
    call(&rt, 1, 10, 1, 2, 0)?;
    call(&rt, 1, 10, 1, 0, 0)?;
    call(&rt, 1, 10, 1, 1, 0x1_0000_0000)?;
    call(&rt, 5, 640, 64, 64, 0x1_0000_0000_0000)?;
    call(&rt, 3, 10, 1, 1, 18446744073709551615)?;
    call(&rt, 4, 20, 2, 2, 0xffff_ffff)?;
    Ok(())
}
