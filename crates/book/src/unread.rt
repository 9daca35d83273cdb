// How far a book's bytes are read: up to the part that is refused (specs/unread/Unread.antt; docs/SPEC.md, "Sessions"). It is no part of what
// `decode` answers: each opening would have to keep where its term begins, measured at 6 % of its time (docs/DECISIONS.md). So
// `terms_read_to` has a loop of its own beside `decode::read_terms`.

ghost use Rattle.std.specs.Prelude.{◌≡◌, [], ◌*◌, ◌≤◌, length, drop, replicate};
ghost use Rattle.model.specs.Area.{term_words};
ghost use Rattle.layout.specs.limits.Limits.{limits_of};
ghost use Rattle.book.specs.unread.Unread.{unread_terms, read_to};

use refusal::Refusal;

// The position of the first of the `count` terms that is refused, the one behind the last where none is.
fn terms_read_to(bytes: &[u8], at: usize, count: u32, rows: &mut [u32]) -> usize
    requires { (at ≤ length bytes.now) × (term_words * count ≤ length rows.old) × (rows.old ≡ replicate (length rows.old) 0) }
    ensures unread { unread_terms count [] (drop at bytes.now) ≡ drop result bytes.now }
    ensures within { result ≤ length bytes.now }
{
    let mut next = at;
    for t in 0..count {
        match crate::reader::read_term(bytes, next, t, rows) {
            Ok(after) => next = after,
            Err(_) => return next,
        }
    }
    next
}

// How far a book is read: the position of the part that is refused, and the end where none is. The rows are as for `decode`.
pub fn read_to(lim: layout::limits::Limits, bytes: &[u8], rows: &mut [u32]) -> usize
    requires { rows.old ≡ replicate (term_words * lim.terms) 0 }
    ensures { result ≡ read_to (limits_of lim) bytes.now }
{
    match crate::parse::read_below(bytes, 0, lim.terms as u32 + 1, Refusal::OutOfRange) {
        Ok(terms) => terms_read_to(bytes, terms.next, terms.value, rows),
        Err(_) => 0,
    }
}
