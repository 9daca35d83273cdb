#![tactic(auto)]

// The calls that are offered to others. None has a `requires`: what is wrong is refused by its number (docs/C-API.md).

ghost use Rattle.std.specs.Prelude.{◌≡◌, [], ◌∷◌};
ghost use Rattle.model.specs.Limits.{office};
ghost use Rattle.model.specs.Call.{call_open, call_add, call_bind, call_copy, call_entry, call_report, call_write};
ghost use Rattle.model.specs.Archive.{call_store, call_restore};
ghost use Rattle.refusal.specs.Numbers.{number, counted};
ghost use Rattle.office.specs.opening.Offered.{needed_length};

use refusal::Refusal;
use step::answer::{Accepted, Step};

// The answer of a call that writes bytes, for C: their number in `written`, 0 on a refusal, and the number of the refusal.
fn count_out(answer: Result<u32, Refusal>, written: &mut u32) -> u32
    ensures refusal { result ≡ number answer }
    ensures written { written.new ≡ counted answer }
{
    *written = answer.unwrap_or(0);
    refusal::number(answer)
}

// The length in bytes that an area of this capacity needs, 0 for a capacity out of range.
#[tactic(auto, unfolding(office::specs::opening::Offered::length_of, office::specs::opening::Offered::needed_length))]
#[unsafe(no_mangle)]
pub extern "C" fn fit_area_length(capacity: u32) -> usize
    ensures { result ≡ needed_length capacity }
{
    office::opening::area_length(capacity).unwrap_or(0)
}

// Opens a book in an area: 4 for the capacity, 7 for an area that is too short, then the book's refusals. Where it is
// accepted the whole needed length is written, and where it is refused no byte is.
#[unsafe(no_mangle)]
pub extern "C" fn fit_open(capacity: u32, book: &[u8], area: &mut [u8]) -> u32
    ensures refusal { result ≡ (call_open office capacity book.now area.old).refusal }
    ensures area { area.new ≡ (call_open office capacity book.now area.old).area }
{
    refusal::number(office::opening::open(capacity, book, area))
}

// Adds the line (`l`, `r`): 7 for an area that is not sound, 8 where one is no term, 12 where there is no room for a line, 11 where
// there is none for its entries. `entry` is the line's entry, 0 on a refusal.
#[tactic(auto, unfolding(calls::specs::Called::call_step, step::specs::answer::Stepped::step_numbers))]
#[unsafe(no_mangle)]
pub extern "C" fn fit_add(area: &mut [u8], l: u32, r: u32, entry: &mut u32) -> u32
    ensures refusal { result ≡ (call_add office area.old l r).refusal }
    ensures entry { entry.new ∷ [] ≡ (call_add office area.old l r).numbers }
    ensures area { area.new ≡ (call_add office area.old l r).area }
{
    let answer = office::steps::step(area, Step::Add(l, r));
    *entry = match answer {
        Ok(Accepted::Added { entry }) => entry,
        _ => 0,
    };
    refusal::number(answer)
}

// Fixes the choice (`v`, `t`): 7 for an area that is not sound, 8 where one is no term, 9 where `v` is not a free variable, 10 where
// it occurs in the value of `t`, 11 where there is no room for the entries. `turned` and `appended` are how many old entries turned
// and how many were appended, 0 on a refusal.
#[tactic(auto, unfolding(calls::specs::Called::call_step, step::specs::answer::Stepped::step_numbers))]
#[unsafe(no_mangle)]
pub extern "C" fn fit_bind(
    area: &mut [u8],
    v: u32,
    t: u32,
    turned: &mut u32,
    appended: &mut u32,
) -> u32
    ensures refusal { result ≡ (call_bind office area.old v t).refusal }
    ensures counts { turned.new ∷ appended.new ∷ [] ≡ (call_bind office area.old v t).numbers }
    ensures area { area.new ≡ (call_bind office area.old v t).area }
{
    let answer = office::steps::step(area, Step::Bind(v, t));
    (*turned, *appended) = match answer {
        Ok(Accepted::Bound { turned, appended }) => (turned, appended),
        _ => (0, 0),
    };
    refusal::number(answer)
}

// Reads a book and writes it back, with no area: the book's refusals, then 13 where `out` is too short. `written` is the
// number of bytes written, 0 on a refusal.
#[unsafe(no_mangle)]
pub extern "C" fn fit_copy_book(book: &[u8], out: &mut [u8], written: &mut u32) -> u32
    ensures refusal { result ≡ (call_copy office book.now out.old).refusal }
    ensures written { written.new ∷ [] ≡ (call_copy office book.now out.old).numbers }
    ensures output { out.new ≡ (call_copy office book.now out.old).output }
{
    count_out(office::copy::copy_book(book, out), written)
}

// Stores a book: with its variables first in `out`, and in `list` the old number of each of its terms. The book's refusals, then 13 where
// either is too short. `written` and `list_written` are the numbers of bytes written to each, 0 on a refusal.
#[unsafe(no_mangle)]
pub extern "C" fn fit_store_book(
    book: &[u8],
    out: &mut [u8],
    list: &mut [u8],
    written: &mut u32,
    list_written: &mut u32,
) -> u32
    ensures refusal { result ≡ (call_store office book.now out.old list.old).refusal }
    ensures written { written.new ∷ list_written.new ∷ [] ≡ (call_store office book.now out.old list.old).numbers }
    ensures output { out.new ≡ (call_store office book.now out.old list.old).output }
    ensures list { list.new ≡ (call_store office book.now out.old list.old).list }
{
    let answer = office::store::store_book(book, out, list);
    (*written, *list_written) = match answer {
        Ok(lengths) => (lengths.book, lengths.list),
        Err(_) => (0, 0),
    };
    refusal::number(answer)
}

// Restores a book: that of which `book` is the renumbering by `list`. The book's refusals, the list's (1, 2, 3, 8, 14), then 5, then 13
// where `out` is too short. `written` is the number of bytes written, 0 on a refusal.
#[unsafe(no_mangle)]
pub extern "C" fn fit_restore_book(
    book: &[u8],
    list: &[u8],
    out: &mut [u8],
    written: &mut u32,
) -> u32
    ensures refusal { result ≡ (call_restore office book.now list.now out.old).refusal }
    ensures written { written.new ∷ [] ≡ (call_restore office book.now list.now out.old).numbers }
    ensures output { out.new ≡ (call_restore office book.now list.now out.old).output }
{
    count_out(office::restore::restore_book(book, list, out), written)
}

// Reads an entry: 7 for an area that is not sound, 8 where there is no such entry. `fields` are left, right, kind, symbol, count,
// the eight argument places and same-as, zeros on a refusal.
#[unsafe(no_mangle)]
pub extern "C" fn fit_entry(
    area: &[u8],
    i: u32,
    fields: &mut [u32; layout::limits::ENTRY_WORDS],
) -> u32
    ensures refusal { result ≡ (call_entry office area.now i).refusal }
    ensures fields { fields.new ≡ (call_entry office area.now i).numbers }
{
    refusal::number(office::entry::read_into(area, i, fields))
}

// Writes the book of an area: 7 for an area that is not sound, then 13 where `out` is too short. `written` is the number of bytes
// written, 0 on a refusal.
#[unsafe(no_mangle)]
pub extern "C" fn fit_write(area: &[u8], out: &mut [u8], written: &mut u32) -> u32
    ensures refusal { result ≡ (call_write office area.now out.old).refusal }
    ensures written { written.new ∷ [] ≡ (call_write office area.now out.old).numbers }
    ensures output { out.new ≡ (call_write office area.now out.old).output }
{
    count_out(office::books::write(area, out), written)
}

// Reports an area: 7 for an area that is not sound, then 13 where `out` is too short. `written` is the number of bytes written,
// 0 on a refusal.
#[unsafe(no_mangle)]
pub extern "C" fn fit_report(area: &[u8], out: &mut [u8], written: &mut u32) -> u32
    ensures refusal { result ≡ (call_report office area.now out.old).refusal }
    ensures written { written.new ∷ [] ≡ (call_report office area.now out.old).numbers }
    ensures output { out.new ≡ (call_report office area.now out.old).output }
{
    count_out(office::reports::report(area, out), written)
}
