// Runs of digits at the front of a text.
ghost use Rattle.std.specs.Prelude.{◌≡◌, ◌≤◌};
ghost use Rattle.script_form.specs.scanner.Scan.{digit_in, exactly, run_in};

// A run of digits: its value, and how many there are.
#[derive(Clone, Copy)]
pub struct Run {
    pub value: u64,
    pub count: usize,
}

// The digit that a byte is in a base. By hand: to_digit of a char takes capital letters too.
#[tactic(auto, unfolding(crate::specs::scanner::Scan::value_of))]
fn digit_in(b: u8, base: u64) -> Option<u64>
    requires { base ≤ 16 }
    ensures { result ≡ digit_in base b }
{
    let value = match b {
        b'0'..=b'9' => b - b'0',
        b'a'..=b'f' => b - b'a' + 10,
        _ => return None,
    };
    let value = u64::from(value);
    if value < base { Some(value) } else { None }
}

// The longest run of at most `most` digits.
pub fn run_in(text: &[u8], base: u64, most: usize) -> Run
    requires { (base ≤ 16) × (most ≤ 16) }
    ensures { result ≡ run_in base most 0 0 text.now }
{
    let front = &text[..text.len().min(most)];
    let mut value: u64 = 0;
    let mut count: usize = 0;
    for b in front {
        let Some(digit) = digit_in(*b, base) else {
            break;
        };
        value = value * base + digit;
        count += 1;
    }
    Run { value, count }
}

// The value of a run of just `count` hexadecimal digits.
pub fn word_in(text: &[u8], count: usize) -> Option<u64>
    requires { count ≤ 16 }
    ensures { result ≡ exactly count (run_in 16 count 0 0 text.now) }
{
    let run = run_in(text, 16, count);
    if run.count == count {
        Some(run.value)
    } else {
        None
    }
}
