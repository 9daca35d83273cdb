// The book of an area, written out, on bytes of any kind. Nothing here changes the area.

ghost use Rattle.model.specs.Limits.{office};
ghost use Rattle.model.specs.Call.{call_write};
ghost use Rattle.refusal.specs.Numbers.{number, counted};
ghost use Rattle.runs.specs.Emits.{Writes};

use refusal::Refusal;

// Writes the book of an area, and gives the number of bytes: 7 for an area that is not sound, then 13 where `out` is too short.
pub fn write(area: &[u8], out: &mut [u8]) -> Result<u32, Refusal>
    ensures { Writes (call_write office area.now out.old) (number result) (counted result) out.new }
{
    let mut names = [0u32; layout::limits::OFFICE_TERMS];
    let mut entries = [0u32; crate::read::TABLE_WORDS];
    let mut lines = [0u32; layout::limits::OFFICE_LINES];
    let mut rows = [0u32; layout::limits::ROWS];
    let h = crate::read::read(area, &mut rows, &mut names, &mut lines, &mut entries)?;
    book::encode::write_book(&rows, h.terms as usize, out)
}
