// The order of two runs of bytes.
ghost use Rattle.std.specs.Prelude.{◌≡◌};
ghost use Rattle.cells.specs.Bytes.{byte_order};

use std::cmp::Ordering;

// The bytes that are compared as one number. On short keys std's order of slices takes up to twice as long.
const WORD: usize = 8;

// Compares by the first byte that differs; a prefix comes first. It goes by 8 bytes as long as both have them, and
// then by one.
pub fn compare_u8(a: &[u8], b: &[u8]) -> Ordering
    ensures { result ≡ byte_order a.now b.now }
{
    let (xs, _) = a.as_chunks::<WORD>();
    let (ys, _) = b.as_chunks::<WORD>();
    for (x, y) in xs.iter().zip(ys) {
        match u64::from_be_bytes(*x).cmp(&u64::from_be_bytes(*y)) {
            Ordering::Equal => {}
            other => return other,
        }
    }
    let compared = xs.len().min(ys.len()) * WORD;
    for (v, w) in a[compared..].iter().zip(&b[compared..]) {
        match v.cmp(w) {
            Ordering::Equal => {}
            other => return other,
        }
    }
    a.len().cmp(&b.len())
}
