// A book restored from a stored one and its list (docs/SPEC.md, "Stored book and its list").

ghost use Rattle.std.specs.Prelude.{◌≡◌, ◌*◌, length, IfOk, OnOk};
ghost use Rattle.model.specs.Area.{term_words};
ghost use Rattle.model.specs.BookBytes.{book_bytes};
ghost use Rattle.model.specs.Archive.{parse_restored, call_restore};
ghost use Rattle.refusal.specs.Numbers.{number, counted};
ghost use Rattle.layout.specs.limits.Limits.{limits_of};
ghost use Rattle.runs.specs.Emits.{Writes};
ghost use Rattle.book.specs.decode.Rows.{book_rows, decoded_refusal, decoded_book};
ghost use Rattle.archive.specs.storing.Lent.{Lent};

use layout::limits::Limits;
use refusal::Refusal;

// What decoding a restored book gives: the number of its terms, and how many bytes it takes.
#[derive(Clone, Copy)]
pub struct Restored {
    pub terms: usize,
    pub bytes: usize,
}

// Decodes the book that the list restores, into the rows `moved`: the book's refusals, then the list's (1, 2, 3, 8, 14), then 5. After a
// refusal nothing is promised of the slices. They are parameters for the reason that `area::test::sound` has.
fn decode_restored(
    lim: Limits,
    book: &[u8],
    list: &[u8],
    rows: &mut [u32],
    listed: &mut [u32],
    places: &mut [u32],
    moved: &mut [u32],
) -> Result<Restored, Refusal>
    requires { Lent (limits_of lim) rows.old listed.old places.old moved.old }
    ensures refusal { number result ≡ decoded_refusal (parse_restored (limits_of lim) book.now list.now) }
    ensures terms { IfOk result (λ r. r.terms ≡ length (decoded_book (parse_restored (limits_of lim) book.now list.now))) }
    ensures bytes { IfOk result (λ r. r.bytes ≡ length (book_bytes (decoded_book (parse_restored (limits_of lim) book.now list.now)))) }
    ensures rows { OnOk result (moved.new ≡ book_rows (term_words * lim.terms) (decoded_book (parse_restored (limits_of lim) book.now list.now))) }
{
    let terms = book::decode::decode(lim, book, rows)? as usize;
    let listed = &mut listed[..terms];
    let places = &mut places[..terms];
    crate::list::read_list(list, listed)?;
    crate::list::invert(listed, places)?;
    let found = crate::moving::move_terms(rows, places, listed, moved);
    if !found.lower {
        return Err(Refusal::NotLower);
    }
    Ok(Restored {
        terms,
        bytes: found.bytes,
    })
}

// Restores a book, and gives the number of bytes written: the refusals above, then 13 where `out` is too short.
pub fn restore(
    lim: Limits,
    book: &[u8],
    list: &[u8],
    rows: &mut [u32],
    listed: &mut [u32],
    places: &mut [u32],
    moved: &mut [u32],
    out: &mut [u8],
) -> Result<u32, Refusal>
    requires { Lent (limits_of lim) rows.old listed.old places.old moved.old }
    ensures { Writes (call_restore (limits_of lim) book.now list.now out.old) (number result) (counted result) out.new }
{
    let restored = decode_restored(lim, book, list, rows, listed, places, moved)?;
    book::encode::write_measured(moved, restored.terms, restored.bytes, out)
}
