// A list has, for each new number of a term, the old one: the list of a stored book, one read from bytes, and the inverse of a list
// (specs/list/Listed.antt). The slice that holds a list is as long as the book has terms.

ghost use Rattle.std.specs.Prelude.{◌≡◌, true, false, ℕ, [], ◌+◌, ◌*◌, ◌≤◌, ◌<◌, length, OnOk, MatchResult};
ghost use Rattle.std.proofs.lemmas.List.Edits.{sets};
ghost use Rattle.model.specs.Area.{term_words};
ghost use Rattle.model.specs.Archive.{variables_first, all_distinct};
ghost use Rattle.refusal.specs.declared.Refusal.TheVariants.{NamedTwice};
ghost use Rattle.layout.specs.limits.Rows.{at, book_of};
ghost use Rattle.book.specs.parse.Parts.{outcome};
ghost use Rattle.archive.specs.list.Listed.{of_kind, parse_named, Inverse};

use refusal::Refusal;

// Lists the terms of one kind, the variables or the others, from place `start` on, in rising number, and gives the place behind them.
// The place is a number, since the second kind is listed behind the first.
fn append_kind(rows: &[u32], n: usize, variables: bool, listed: &mut [u32], start: usize) -> usize
    requires { (term_words * n ≤ length rows.now) × (n ≤ 4294967295) × (start + length (of_kind rows.now variables n) ≤ length listed.old) }
    ensures next { result ≡ start + length (of_kind rows.now variables n) }
    ensures listed { listed.new ≡ sets listed.old start (of_kind rows.now variables n) }
{
    let mut next = start;
    for t in 0..n {
        if (rows[layout::limits::TERM_WORDS * t] == 0) == variables {
            listed[next] = t as u32;
            next += 1;
        }
    }
    next
}

// The list of the book in the first rows: its variables, then its other terms, each in rising number.
pub fn variables_first(rows: &[u32], listed: &mut [u32])
    requires { (term_words * length listed.old ≤ length rows.now) × (length listed.old ≤ 4294967295) }
    ensures { listed.new ≡ variables_first (book_of rows.now (length listed.old)) }
{
    let n = listed.len();
    let others = append_kind(rows, n, true, listed, 0);
    append_kind(rows, n, false, listed, others);
}

// Reads a list: 1 and 2 over its numbers, 3 for bytes left over, 8 for a number that names no term.
pub fn read_list(list: &[u8], listed: &mut [u32]) -> Result<(), Refusal>
    ensures { outcome result [] listed.new ≡ parse_named (length listed.old) list.now }
{
    let n = listed.len();
    let mut next = 0;
    for place in listed.iter_mut() {
        let number = leb128::read(list, next)?;
        *place = number.value;
        next = number.next;
    }
    if next < list.len() {
        return Err(Refusal::LeftOver);
    }
    if listed.iter().any(|t| n <= *t as usize) {
        return Err(Refusal::NamesNothing);
    }
    Ok(())
}

// Leaves the place of each term in the list: 14 for a term that is named twice. A place that was taken is told by what stands there, so
// it does not matter what `places` had.
pub fn invert(listed: &[u32], places: &mut [u32]) -> Result<(), Refusal>
    requires { (length listed.now ≤ length places.old) × (length listed.now ≤ 4294967295) × ((i : ℕ) → i < length listed.now → at listed.now i < length listed.now) }
    ensures distinct { MatchResult result (λ _. all_distinct listed.now ≡ true) (λ e. (all_distinct listed.now ≡ false) × (e ≡ NamedTwice)) }
    ensures places { OnOk result (Inverse (length listed.now) listed.now places.new) }
{
    for (i, t) in listed.iter().enumerate() {
        let t = *t as usize;
        let j = places[t] as usize;
        if j < i && listed[j] as usize == t {
            return Err(Refusal::NamedTwice);
        }
        places[t] = i as u32;
    }
    Ok(())
}
