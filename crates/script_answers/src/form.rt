// A form with its values, written from left to right.
ghost use Rattle.std.specs.Prelude.{◌≡◌, [], ◌∷◌, ◌++◌, ◌+◌, ◌<◌, ◌≤◌, length, slice_index, take, drop};
ghost use Rattle.script_form.specs.Digits.{digit, fixed, place};
ghost use Rattle.script_form.specs.Form.{piece_of, fill};
ghost use Rattle.script_answers.specs.inner.Pieces.{text_of, values_taken, Shapes, put_at};

// A value's lowest digits in a base.
#[derive(Clone, Copy)]
pub struct Digits {
    pub base: u64,
    pub count: usize,
}

// The digit of value `d`. By hand: std has from_digit for a char alone. What is cast fits, as proved.
#[tactic(auto, unfolding(script_form::specs::Digits::digit))]
fn digit_of(d: u64) -> u8
    requires { d < 16 }
    ensures { result ≡ digit d }
{
    if d < 10 {
        b'0' + (d as u8)
    } else {
        b'a' + ((d - 10) as u8)
    }
}

// The lowest digits of `value` in base `base`, as many as there is room for.
fn put_digits(out: &mut [u8], base: u64, value: u64)
    requires { (1 ≤ base) × (base ≤ 16) }
    ensures { out.new ≡ fixed base (length out.old) value }
{
    let mut left = value;
    // By index: what `iter_mut().rev()` lends is not tied back to `out`, and the proof did not close.
    for i in (0..out.len()).rev() {
        out[i] = digit_of(left % base);
        left = left / base;
    }
}

// The place of a decimal's leading digit: at most 19, so that as loses nothing.
fn places(value: u64) -> usize
    ensures { (result ≡ place 19 value) × (result ≤ 19) }
{
    value.max(1).ilog10() as usize
}

// How the byte `p` of a form is written with the value `v`, where a block has `digits` digits; `None` is as itself.
fn shape_of(p: u8, v: u64, digits: usize) -> Option<Digits>
    ensures { Shapes result (piece_of digits p) p v }
{
    let (base, count) = match p {
        b'#' | b'%' => (10, places(v) + 1),
        b'&' => (16, 20),
        b'$' => (16, 16),
        b'*' => (16, digits),
        _ => return None,
    };
    Some(Digits { base, count })
}

// The place after a byte of a form, and how many values it took.
#[derive(Clone, Copy)]
pub struct Put {
    pub at: usize,
    pub taken: usize,
}

// The byte `p` of a form with the value `v`, from `at` on.
fn put_piece(out: &mut [u8], at: usize, p: u8, v: u64, digits: usize) -> Put
    requires { at + length (text_of (piece_of digits p) p v) ≤ length out.old }
    ensures { (result.at ≡ at + length (text_of (piece_of digits p) p v)) × (result.taken ≡ values_taken (piece_of digits p))
        × (out.new ≡ put_at at (text_of (piece_of digits p) p v) out.old) }
{
    match shape_of(p, v, digits) {
        None => {
            out[at] = p;
            Put {
                at: at + 1,
                taken: 0,
            }
        }
        Some(shape) => {
            let end = at + shape.count;
            put_digits(&mut out[at..end], shape.base, v);
            Put { at: end, taken: 1 }
        }
    }
}

// A form with its values, at the start of `out`; how many bytes that is.
pub fn write_form(form: &[u8], values: &[u64], digits: usize, out: &mut [u8]) -> usize
    requires { length (fill digits form.now values.now) ≤ length out.old }
    ensures { (result ≡ length (fill digits form.now values.now))
        × (out.new ≡ fill digits form.now values.now ++ drop (length (fill digits form.now values.now)) out.old) }
{
    let mut at: usize = 0;
    // Not every byte of a form takes a value, so no zip goes over both.
    let mut n: usize = 0;
    for p in form {
        let v = values.get(n).copied().unwrap_or(0);
        let put = put_piece(out, at, *p, v, digits);
        at = put.at;
        n += put.taken;
    }
    at
}
