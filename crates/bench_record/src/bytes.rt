// Parts of a list of bytes.
ghost use Rattle.std.specs.Prelude.{◌≡◌, take, drop};

// As many of the n bytes from a place on as there are.
pub fn bytes_in(bytes: &[u8], from: usize, n: usize) -> &[u8]
    ensures { result.now ≡ take n (drop from bytes.now) }
{
    let rest = &bytes[from.min(bytes.len())..];
    &rest[..n.min(rest.len())]
}
