// A book restored, with the office's limits.

ghost use Rattle.model.specs.Limits.{office};
ghost use Rattle.model.specs.Archive.{call_restore};
ghost use Rattle.refusal.specs.Numbers.{number, counted};
ghost use Rattle.runs.specs.Emits.{Writes};

use refusal::Refusal;

// Restores a book: that of which `book` is the renumbering by `list`; gives the number of bytes. The book's refusals, the list's (1, 2, 3,
// 8, 14), then 5, then 13 where `out` is too short.
pub fn restore_book(book: &[u8], list: &[u8], out: &mut [u8]) -> Result<u32, Refusal>
    ensures { Writes (call_restore office book.now list.now out.old) (number result) (counted result) out.new }
{
    let mut rows = [0u32; layout::limits::ROWS];
    let mut listed = [0u32; layout::limits::OFFICE_TERMS];
    let mut places = [0u32; layout::limits::OFFICE_TERMS];
    let mut moved = [0u32; layout::limits::ROWS];
    archive::restoring::restore(
        layout::limits::OFFICE,
        book,
        list,
        &mut rows,
        &mut listed,
        &mut places,
        &mut moved,
        out,
    )
}
