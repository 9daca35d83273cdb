// A book stored, with the office's limits.

ghost use Rattle.model.specs.Limits.{office};
ghost use Rattle.model.specs.Archive.{call_store};
ghost use Rattle.refusal.specs.Numbers.{number};
ghost use Rattle.runs.specs.Emits.{WritesBoth};
ghost use Rattle.archive.specs.storing.Written.{book_written, list_written};

use archive::storing::Written;
use refusal::Refusal;

// Stores a book: with its variables first in `out`, and in `list` the old number of each of its terms; gives the numbers of bytes. The
// book's refusals, then 13 where either is too short.
pub fn store_book(book: &[u8], out: &mut [u8], list: &mut [u8]) -> Result<Written, Refusal>
    ensures { WritesBoth (call_store office book.now out.old list.old)
        (number result) (book_written result) (list_written result) out.new list.new }
{
    let mut rows = [0u32; layout::limits::ROWS];
    let mut listed = [0u32; layout::limits::OFFICE_TERMS];
    let mut places = [0u32; layout::limits::OFFICE_TERMS];
    let mut moved = [0u32; layout::limits::ROWS];
    archive::storing::store(
        layout::limits::OFFICE,
        book,
        &mut rows,
        &mut listed,
        &mut places,
        &mut moved,
        out,
        list,
    )
}
