// The report of an area, on bytes of any kind. Nothing here changes the area.

ghost use Rattle.model.specs.Limits.{office};
ghost use Rattle.model.specs.Call.{call_report};
ghost use Rattle.refusal.specs.Numbers.{number, counted};
ghost use Rattle.runs.specs.Emits.{Writes};

use refusal::Refusal;

// The words before the entries of a report with the most lines: how many lines, each line's entry, how many entries.
const HEAD_WORDS: usize = layout::limits::OFFICE_LINES + 2;

// Reports an area, and gives the number of bytes: 7 for an area that is not sound, then 13 where `out` is too short.
pub fn report(area: &[u8], out: &mut [u8]) -> Result<u32, Refusal>
    ensures { Writes (call_report office area.now out.old) (number result) (counted result) out.new }
{
    let mut head = [0u32; HEAD_WORDS];
    let mut lines = [0u32; layout::limits::OFFICE_LINES];
    let mut names = [0u32; layout::limits::OFFICE_TERMS];
    let mut rows = [0u32; layout::limits::ROWS];
    let mut entries = [0u32; crate::read::TABLE_WORDS];
    let h = crate::read::read(area, &mut rows, &mut names, &mut lines, &mut entries)?;
    let end = layout::limits::ENTRY_WORDS * (h.capacity as usize);
    let k = h.lines as usize;
    let mut met = [0u32; layout::limits::OFFICE_CAPACITY];
    let mut numbers = [0u32; layout::limits::OFFICE_CAPACITY];
    report::write::report(
        &names,
        &lines[..k],
        &entries[..end],
        h.entries as usize,
        &mut met,
        &mut numbers,
        &mut head,
        out,
    )
}
