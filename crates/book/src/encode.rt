// Term rows into a book's bytes (specs/encode/Encoding.antt; docs/SPEC.md, "Bytes"). The number of terms stands beside rows that may go on
// behind them: a slice of just these rows would tell it only by a division, which is no plainer.

ghost use Rattle.std.specs.Prelude.{◌≡◌, [], ◌++◌, ◌≤◌, length, drop, T};
ghost use Rattle.model.specs.BookBytes.{book_bytes};
ghost use Rattle.model.specs.Call.{emit};
ghost use Rattle.refusal.specs.Numbers.{number, counted};
ghost use Rattle.layout.specs.limits.Rows.{book_of};
ghost use Rattle.runs.specs.Emits.{Writes};
ghost use Rattle.book.specs.encode.Encoding.{encodable};

use refusal::Refusal;

// How many bytes the first `terms` rows take as a book.
pub fn encoded_length(rows: &[u32], terms: usize) -> usize
    requires { T (encodable rows.now terms) }
    ensures { result ≡ length (book_bytes (book_of rows.now terms)) }
{
    let mut sum = leb128::length_of(terms as u32);
    for t in 0..terms {
        sum += crate::write::term_length(rows, t);
    }
    sum
}

// Encodes the first `terms` rows to the front of `out`, which is long enough, and gives the number of bytes.
pub fn encode(rows: &[u32], terms: usize, out: &mut [u8]) -> usize
    requires { T (encodable rows.now terms) × (length (book_bytes (book_of rows.now terms)) ≤ length out.old) }
    ensures count { result ≡ length (book_bytes (book_of rows.now terms)) }
    ensures bytes { out.new ≡ book_bytes (book_of rows.now terms) ++ drop result out.old }
{
    let mut at = runs::put_number(out, 0, terms as u32);
    for t in 0..terms {
        at = crate::write::put_term(rows, t, out, at);
    }
    at
}

// Writes the book in the first `terms` rows, which takes `bytes` bytes, and gives their number: 13 where `out` is too short.
pub fn write_measured(
    rows: &[u32],
    terms: usize,
    bytes: usize,
    out: &mut [u8],
) -> Result<u32, Refusal>
    requires { T (encodable rows.now terms) × (length (book_bytes (book_of rows.now terms)) ≤ 4294967295) × (bytes ≡ length (book_bytes (book_of rows.now terms))) }
    ensures { Writes (emit (book_bytes (book_of rows.now terms)) [] out.old) (number result) (counted result) out.new }
{
    if out.len() < bytes {
        return Err(Refusal::TooShort);
    }
    let count = encode(rows, terms, out);
    Ok(count as u32)
}

// The same of a book that is not measured yet.
pub fn write_book(rows: &[u32], terms: usize, out: &mut [u8]) -> Result<u32, Refusal>
    requires { T (encodable rows.now terms) × (length (book_bytes (book_of rows.now terms)) ≤ 4294967295) }
    ensures { Writes (emit (book_bytes (book_of rows.now terms)) [] out.old) (number result) (counted result) out.new }
{
    write_measured(rows, terms, encoded_length(rows, terms), out)
}
