// A line of the file of vectors: two decimal numbers, a space between them and a line end after them.
ghost use Rattle.std.specs.Prelude.{IfSome, length, ◌<◌};
ghost use Rattle.hash_vectors.specs.Lines.{BeginsWithVector};

use text::number_at;

// The two numbers of the first line of a text, and what stands behind it, or `None` where the line is malformed.
pub fn numbers(text: &[u8]) -> Option<(u64, u64, &[u8])>
    ensures vector { IfSome result (λ v. BeginsWithVector text.now v.0 v.1 v.2.now) }
    ensures shorter { IfSome result (λ v. length v.2.now < length text.now) }
{
    let (input, rest) = number_at(text, b' ')?;
    let (output, rest) = number_at(rest, b'\n')?;
    Some((input, output, rest))
}
