// A book opened in an area, and where it is refused, with the office's limits.

ghost use Rattle.std.specs.Prelude.{◌≡◌};
ghost use Rattle.model.specs.Limits.{office};
ghost use Rattle.model.specs.Call.{call_open};
ghost use Rattle.book.specs.unread.Unread.{read_to};
ghost use Rattle.refusal.specs.Numbers.{number};
ghost use Rattle.office.specs.opening.Offered.{length_of};

use refusal::Refusal;

// The length in bytes that an area of this capacity needs; none for a capacity out of range.
#[tactic(auto, unfolding(crate::specs::opening::Offered::length_of))]
pub fn area_length(capacity: u32) -> Option<usize>
    ensures { result ≡ length_of capacity }
{
    let capacity = capacity as usize;
    if capacity < 1 || layout::limits::OFFICE_CAPACITY < capacity {
        return None;
    }
    Some(layout::offsets::needed_length(layout::limits::OFFICE, capacity))
}

// Opens a book in an area: 4 for the capacity, 7 for an area that is too short, then the book's refusals. Where it is
// accepted the whole needed length is written, and where it is refused no byte is.
pub fn open(capacity: u32, book: &[u8], area: &mut [u8]) -> Result<(), Refusal>
    ensures refusal { number result ≡ (call_open office capacity book.now area.old).refusal }
    ensures area { area.new ≡ (call_open office capacity book.now area.old).area }
{
    let needed = area_length(capacity).ok_or(Refusal::OutOfRange)?;
    if area.len() < needed {
        return Err(Refusal::NotSound);
    }
    let mut rows = [0u32; layout::limits::ROWS];
    let terms = book::decode::decode(layout::limits::OFFICE, book, &mut rows)?;
    area::save::opened(layout::limits::OFFICE, area, capacity, needed, &rows, terms);
    Ok(())
}

// How far a book is read: the position of the part that is refused, and the end where none is.
pub fn read_to(book: &[u8]) -> usize
    ensures { result ≡ read_to office book.now }
{
    let mut rows = [0u32; layout::limits::ROWS];
    book::unread::read_to(layout::limits::OFFICE, book, &mut rows)
}
