// A book's bytes into term rows (specs/decode/Rows.antt; docs/SPEC.md, "Bytes").

ghost use Rattle.std.specs.Prelude.{◌≡◌, [], ◌*◌, ◌≤◌, length, drop, replicate, OnOk};
ghost use Rattle.model.specs.Area.{term_words};
ghost use Rattle.model.specs.BookBytes.{parse_terms, parse_book};
ghost use Rattle.refusal.specs.Numbers.{number, counted};
ghost use Rattle.layout.specs.limits.Limits.{limits_of};
ghost use Rattle.book.specs.parse.Parts.{AdvanceOf, BookIn};
ghost use Rattle.book.specs.decode.Rows.{book_rows, decoded_refusal, decoded_book};

use refusal::Refusal;

// The `count` terms of a book, into rows that are all zero. The position behind them.
fn read_terms(bytes: &[u8], at: usize, count: u32, rows: &mut [u32]) -> Result<usize, Refusal>
    requires { (at ≤ length bytes.now) × (term_words * count ≤ length rows.old) × (rows.old ≡ replicate (length rows.old) 0) }
    ensures { AdvanceOf bytes.now (parse_terms count [] (drop at bytes.now)) (BookIn count (length rows.old) rows.new) result }
{
    let mut next = at;
    for t in 0..count {
        next = crate::reader::read_term(bytes, next, t, rows)?;
    }
    Ok(next)
}

// Decodes a book into the rows of as many terms as the limit, which are all zero, and gives the number of its terms. No bytes are the
// book without terms. After a refusal nothing is promised of the rows.
pub fn decode(lim: layout::limits::Limits, bytes: &[u8], rows: &mut [u32]) -> Result<u32, Refusal>
    requires { rows.old ≡ replicate (term_words * lim.terms) 0 }
    ensures refusal { number result ≡ decoded_refusal (parse_book (limits_of lim) bytes.now) }
    ensures terms { counted result ≡ length (decoded_book (parse_book (limits_of lim) bytes.now)) }
    ensures rows { OnOk result (rows.new ≡ book_rows (term_words * lim.terms) (decoded_book (parse_book (limits_of lim) bytes.now))) }
{
    if bytes.is_empty() {
        return Ok(0);
    }
    let terms = crate::parse::read_below(bytes, 0, lim.terms as u32 + 1, Refusal::OutOfRange)?;
    let end = read_terms(bytes, terms.next, terms.value, rows)?;
    if end < bytes.len() {
        return Err(Refusal::LeftOver);
    }
    Ok(terms.value)
}
