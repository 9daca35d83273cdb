// A book stored: its variables first, and beside it the list of its terms' old numbers (docs/SPEC.md, "Stored book and its list").

ghost use Rattle.std.specs.Prelude.{◌≡◌, ◌≤◌, length, T};
ghost use Rattle.model.specs.Report.{number_bytes};
ghost use Rattle.model.specs.BookBytes.{book_bytes};
ghost use Rattle.model.specs.Archive.{emit_both, call_store};
ghost use Rattle.refusal.specs.Numbers.{number};
ghost use Rattle.layout.specs.limits.Limits.{limits_of};
ghost use Rattle.layout.specs.limits.Rows.{book_of};
ghost use Rattle.runs.specs.Runs.{small_words};
ghost use Rattle.runs.specs.Emits.{WritesBoth};
ghost use Rattle.book.specs.encode.Encoding.{encodable};
ghost use Rattle.archive.specs.storing.Lent.{Lent};
ghost use Rattle.archive.specs.storing.Written.{book_written, list_written};

use layout::limits::Limits;
use refusal::Refusal;

// The numbers of bytes written, the book's and the list's.
#[derive(Clone, Copy, Debug, PartialEq, Eq)]
pub struct Written {
    pub book: u32,
    pub list: u32,
}

// Writes the book in the first rows, as many terms as the list has, which takes `bytes` bytes, and the list: 13 where either output is too
// short, and then neither is touched.
fn write_both(
    rows: &[u32],
    bytes: usize,
    listed: &[u32],
    out: &mut [u8],
    list: &mut [u8],
) -> Result<Written, Refusal>
    requires { T (encodable rows.now (length listed.now)) × (length (book_bytes (book_of rows.now (length listed.now))) ≤ 4294967295)
        × (bytes ≡ length (book_bytes (book_of rows.now (length listed.now)))) × small_words listed.now }
    ensures { WritesBoth (emit_both (book_bytes (book_of rows.now (length listed.now))) (number_bytes listed.now) out.old list.old)
        (number result) (book_written result) (list_written result) out.new list.new }
{
    if out.len() < bytes {
        return Err(Refusal::TooShort);
    }
    if list.len() < runs::run_length(listed) {
        return Err(Refusal::TooShort);
    }
    let count = book::encode::encode(rows, listed.len(), out);
    let behind = runs::put_run(listed, list, 0);
    Ok(Written {
        book: count as u32,
        list: behind as u32,
    })
}

// Stores a book, and gives the numbers of bytes written to each output: the book's refusals, then 13 where `out` or `list` is too short.
// The slices are parameters for the reason that `area::test::sound` has.
pub fn store(
    lim: Limits,
    book: &[u8],
    rows: &mut [u32],
    listed: &mut [u32],
    places: &mut [u32],
    moved: &mut [u32],
    out: &mut [u8],
    list: &mut [u8],
) -> Result<Written, Refusal>
    requires { Lent (limits_of lim) rows.old listed.old places.old moved.old }
    ensures { WritesBoth (call_store (limits_of lim) book.now out.old list.old)
        (number result) (book_written result) (list_written result) out.new list.new }
{
    let terms = book::decode::decode(lim, book, rows)? as usize;
    let listed = &mut listed[..terms];
    let places = &mut places[..terms];
    crate::list::variables_first(rows, listed);
    // this list names every term once
    crate::list::invert(listed, places).unwrap();
    let found = crate::moving::move_terms(rows, listed, places, moved);
    write_both(moved, found.bytes, listed, out, list)
}
