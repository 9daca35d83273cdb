// A book read and written back, with the office's limits.

ghost use Rattle.model.specs.Limits.{office};
ghost use Rattle.model.specs.Call.{call_copy};
ghost use Rattle.refusal.specs.Numbers.{number, counted};
ghost use Rattle.runs.specs.Emits.{Writes};

use refusal::Refusal;

// Reads a book and writes it back, with no area, and gives the number of bytes: the book's refusals, then 13 where `out` is too short.
pub fn copy_book(book: &[u8], out: &mut [u8]) -> Result<u32, Refusal>
    ensures { Writes (call_copy office book.now out.old) (number result) (counted result) out.new }
{
    let mut rows = [0u32; layout::limits::ROWS];
    let terms = book::decode::decode(layout::limits::OFFICE, book, &mut rows)?;
    book::encode::write_book(&rows, terms as usize, out)
}
