// An entry of an area, on bytes of any kind. Nothing here changes the area.

ghost use Rattle.std.specs.Prelude.{◌≡◌};
ghost use Rattle.model.specs.Limits.{office};
ghost use Rattle.model.specs.Call.{call_entry};
ghost use Rattle.refusal.specs.Numbers.{number};
ghost use Rattle.office.specs.entry.Fields.{fields_of};

use layout::entry::Entry;
use layout::limits::ENTRY_WORDS;
use refusal::Refusal;

// Reads an entry: 7 for an area that is not sound, 8 where there is no such entry.
pub fn entry(area: &[u8], i: u32) -> Result<Entry, Refusal>
    ensures refusal { number result ≡ (call_entry office area.now i).refusal }
    ensures fields { fields_of result ≡ (call_entry office area.now i).numbers }
{
    let mut rows = [0u32; layout::limits::ROWS];
    let mut lines = [0u32; layout::limits::OFFICE_LINES];
    let mut entries = [0u32; crate::read::TABLE_WORDS];
    let mut names = [0u32; layout::limits::OFFICE_TERMS];
    let h = crate::read::read(area, &mut rows, &mut names, &mut lines, &mut entries)?;
    if h.entries <= i {
        return Err(Refusal::NamesNothing);
    }
    Ok(layout::entry::entry_at(&entries, i as usize))
}

// The numbers of an entry that was read: left, right, kind, symbol, count, the eight argument places and same-as, zeros on a refusal.
pub fn fields(answer: Result<Entry, Refusal>) -> [u32; ENTRY_WORDS]
    ensures { result ≡ fields_of answer }
{
    match answer {
        Ok(entry) => layout::entry::row_of(entry),
        Err(_) => [0; ENTRY_WORDS],
    }
}

// Reads an entry, and puts its numbers into `fields`: zeros on a refusal.
pub fn read_into(area: &[u8], i: u32, fields: &mut [u32; ENTRY_WORDS]) -> Result<(), Refusal>
    ensures refusal { number result ≡ (call_entry office area.now i).refusal }
    ensures fields { fields.new ≡ (call_entry office area.now i).numbers }
{
    let answer = entry(area, i);
    *fields = crate::entry::fields(answer);
    answer?;
    Ok(())
}
