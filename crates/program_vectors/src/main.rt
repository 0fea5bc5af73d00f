// Runs the cases and the lists of calls of standard input, and prints one line for each line.
//
//     e V KEY BLOCK           a block encrypted
//     d V KEY BLOCK           a block decrypted
//     s V KEY FROM TO BLOCK   the registers at position TO, from those at position FROM
//     b V                     a fresh bench and link opened; where refused, those before it stay
//     a RECORD                the record's arrival at the bench opened last
//     r LANE                  a lane of that bench read
//
// V, FROM, TO and LANE are decimal, and all but LANE 0 to 255. A key or a record is its bytes in
// hexadecimal, byte 0 first, or `-` for none; it has at most 80, and a key on an s line 10. A block
// is 16 hexadecimal digits, most significant first. The answer to e, d and s is such a block, to b
// `bench V`, to a `done NUMBER TOTAL` or `again NUMBER TOTAL`, and to r `at POSITION REGISTERS`,
// the registers as a block. A refused call is answered by `refused K`, with K the refusal's number,
// and a line of another form, or an a or r line before any bench, by `bad line`.
#![tactic(auto)]

ghost use Rattle.std.specs.Prelude.{◌≡◌, ◌<◌, ◌≤◌, length, IfOk};

use bench::{Bench, Link, Reading, Reply};
use katan::{KEY_BYTES, Refusal, RoundPosition};
use std::error::Error;
use std::io::Read;
use std::{fmt, io};

// The most bytes of a key or a record on a line.
const MOST_BYTES: usize = 80;

// The bench and link that the next call meets.
#[derive(Clone, Copy)]
struct Session {
    bench: Bench,
    link: Link,
}

// What a line is answered.
#[derive(Clone, Copy)]
enum Answer {
    Block(u64),
    Opened(u8),
    Replied(Reply),
    Read(Reading),
}

impl fmt::Display for Answer {
    fn fmt<W: fmt::Write>(&self, f: &mut fmt::Formatter<W>) -> fmt::Result {
        match *self {
            Answer::Block(block) => write!(f, "{block:016x}"),
            Answer::Opened(variant) => write!(f, "bench {variant}"),
            Answer::Replied(Reply::Done { number, total }) => write!(f, "done {number} {total}"),
            Answer::Replied(Reply::Again { number, total }) => write!(f, "again {number} {total}"),
            Answer::Read(reading) => {
                write!(f, "at {} {:016x}", reading.position.0, reading.registers)
            }
        }
    }
}

// Why a line gets no answer.
#[derive(Clone, Copy, Debug)]
enum Fault {
    Refused(Refusal),
    BadLine,
}

impl fmt::Display for Fault {
    fn fmt<W: fmt::Write>(&self, f: &mut fmt::Formatter<W>) -> fmt::Result {
        match self {
            Fault::Refused(refusal) => write!(f, "{refusal}"),
            Fault::BadLine => write!(f, "bad line"),
        }
    }
}

impl Error for Fault {}

impl From<Refusal> for Fault {
    fn from(refusal: Refusal) -> Fault {
        Fault::Refused(refusal)
    }
}

// The field before the first space, and what comes after it.
fn cut(line: &[u8]) -> Result<(&[u8], &[u8]), Fault> {
    let at = line.iter().position(|b| *b == b' ').ok_or(Fault::BadLine)?;
    Ok((&line[..at], &line[at + 1..]))
}

// Beside script_form's digit_in: a program of the gate shares no code with the script.
// The value of a digit of base 10 or 16, by hand: a capital letter, which to_digit of a char would take, is none. Nor is a space: so the last field of a line
// is the last.
fn digit(b: u8, base: u8) -> Result<u8, Fault>
    ensures { IfOk result (λ d. d < base) }
{
    let value = match b {
        b'0'..=b'9' => b - b'0',
        b'a'..=b'f' => b - b'a' + 10,
        _ => return Err(Fault::BadLine),
    };
    if value < base {
        Ok(value)
    } else {
        Err(Fault::BadLine)
    }
}

// A number of one digit or more; one that is too large for a word is the largest.
fn number_in(digits: &[u8], base: u8) -> Result<u64, Fault> {
    if digits.is_empty() {
        return Err(Fault::BadLine);
    }
    let mut n: u64 = 0;
    for b in digits {
        let low = digit(*b, base)?;
        n = n
            .saturating_mul(u64::from(base))
            .saturating_add(u64::from(low));
    }
    Ok(n)
}

// A decimal number, at most 255.
fn byte_number(digits: &[u8]) -> Result<u8, Fault> {
    u8::try_from(number_in(digits, 10)?).or(Err(Fault::BadLine))
}

// A number of 16 hexadecimal digits.
fn block_number(digits: &[u8]) -> Result<u64, Fault> {
    if digits.len() == 16 {
        number_in(digits, 16)
    } else {
        Err(Fault::BadLine)
    }
}

// The bytes of a key or a record, into room for the most: one or more, or `-` for none.
fn hexadecimal<'a>(digits: &[u8], room: &'a mut [u8; MOST_BYTES]) -> Result<&'a [u8], Fault> {
    if let [b'-'] = digits {
        return Ok(&room[..0]);
    }
    let count = digits.len() / 2;
    if count == 0 || MOST_BYTES < count || digits.len() % 2 == 1 {
        return Err(Fault::BadLine);
    }
    for (byte, pair) in room.iter_mut().zip(digits.chunks_exact(2)) {
        let [high, low] = pair else {
            return Err(Fault::BadLine);
        };
        *byte = digit(*high, 16)? * 16 + digit(*low, 16)?;
    }
    Ok(&room[..count])
}

// A line of kind e or d, on which a block is worked.
fn block_line<Work: FnOnce(u8, &[u8], u64) -> Result<u64, Refusal>>(
    rest: &[u8],
    work: Work,
) -> Result<Answer, Fault>
    requires { Work.IsAlwaysCallable work }
{
    let (variant, rest) = cut(rest)?;
    let (key, block) = cut(rest)?;
    let mut room = [0; MOST_BYTES];
    let key = hexadecimal(key, &mut room)?;
    let worked = work(byte_number(variant)?, key, block_number(block)?)?;
    Ok(Answer::Block(worked))
}

fn registers_line(rest: &[u8]) -> Result<Answer, Fault> {
    let (variant, rest) = cut(rest)?;
    let (key, rest) = cut(rest)?;
    let (from, rest) = cut(rest)?;
    let (to, block) = cut(rest)?;
    let mut room = [0; MOST_BYTES];
    let key = hexadecimal(key, &mut room)?;
    if key.len() != KEY_BYTES {
        return Err(Fault::BadLine);
    }
    let registers = katan_registers::registers_at(
        byte_number(variant)?,
        katan_numbers::key_of(key),
        RoundPosition(byte_number(from)?),
        RoundPosition(byte_number(to)?),
        block_number(block)?,
    )?;
    Ok(Answer::Block(registers))
}

fn bench_line(session: &mut Option<Session>, rest: &[u8]) -> Result<Answer, Fault> {
    let variant = byte_number(rest)?;
    let opening = bench_fresh::open(variant);
    opening.answer?;
    *session = Some(Session {
        bench: opening.bench,
        link: opening.link,
    });
    Ok(Answer::Opened(variant))
}

fn arrival_line(session: &mut Option<Session>, rest: &[u8]) -> Result<Answer, Fault> {
    let mut room = [0; MOST_BYTES];
    let record = hexadecimal(rest, &mut room)?;
    let open = session.ok_or(Fault::BadLine)?;
    let arrival = bench_stepping::arrive_once(open.bench, open.link, record);
    *session = Some(Session {
        bench: arrival.bench,
        link: arrival.link,
    });
    Ok(Answer::Replied(arrival.reply?))
}

fn read_line(session: &mut Option<Session>, rest: &[u8]) -> Result<Answer, Fault> {
    let lane = number_in(rest, 10)?;
    let open = session.ok_or(Fault::BadLine)?;
    // A word of this machine loses nothing as usize; std has no From for it.
    Ok(Answer::Read(bench_stepping::read(open.bench, lane as usize)?))
}

// A line by its kind, which one space ends.
fn answered(session: &mut Option<Session>, line: &[u8]) -> Result<Answer, Fault> {
    match line {
        [b'e', b' ', rest @ ..] => block_line(rest, katan_cipher::encrypt),
        [b'd', b' ', rest @ ..] => block_line(rest, katan_cipher::decrypt),
        [b's', b' ', rest @ ..] => registers_line(rest),
        [b'b', b' ', rest @ ..] => bench_line(session, rest),
        [b'a', b' ', rest @ ..] => arrival_line(session, rest),
        [b'r', b' ', rest @ ..] => read_line(session, rest),
        _ => Err(Fault::BadLine),
    }
}

// Answers each line; the last needs no line feed.
fn run(rt: &HostRuntime, input: &[u8]) -> io::Result<()> {
    let mut session = None;
    for line in input.split_inclusive(|b| *b == b'\n') {
        match answered(&mut session, line.strip_suffix(b"\n").unwrap_or(line)) {
            Ok(answer) => println!(rt; "{answer}")?,
            Err(fault) => println!(rt; "{fault}")?,
        }
    }
    Ok(())
}

// In a function of its own, so that no proof of another computes so long a list.
fn input_buffer() -> [u8; 1048576]
    ensures { 1048576 ≡ length result }
{
    [0; 1048576]
}

// Reads until the input ends or the buffer is full, and says how many bytes were read. The buffer is fixed, since no heap is a rule here, and no method of
// `Read` fills one that the input may end within.
fn read_full(rt: &HostRuntime, buffer: &mut [u8]) -> io::Result<usize>
    ensures { IfOk result (λ n. n ≤ length buffer.new) }
{
    let mut stdin = rt.stdin();
    let mut at = 0;
    while at < buffer.len() {
        let n = stdin.read(&mut buffer[at..])?;
        if n == 0 {
            break;
        }
        at += n;
    }
    Ok(at)
}

// Input past the buffer's length is not read.
fn main(rt: HostRuntime) -> io::Result<()> {
    let mut input = input_buffer();
    let n = read_full(&rt, &mut input)?;
    run(&rt, &input[..n])
}
