// The steps of a pair table in slices: its argument pairs placed, an entry turned or visited, each as its definition says
// (specs/visit/Visiting.antt; document 01, "The pair table"). The slices are those of module `place`.

ghost use Rattle.std.specs.Prelude.{◌+◌, ◌*◌, ◌≤◌, length};
ghost use Rattle.model.specs.Area.{term_words};
ghost use Rattle.layout.specs.limits.Rows.{at};
ghost use Rattle.pairs.specs.Lent.{SameSlices};
ghost use Rattle.table.specs.place.Stands.{GivenTable, Whatever};
ghost use Rattle.table.specs.visit.Visiting.{ToPlaceAllIn, ArePlacedIn, ToTurn, IsTurned, ToVisitIn, IsVisitedIn};

use layout::entry::Entry;
use layout::limits::{MAX_ARITY, TERM_WORDS};
use pairs::Index;
use refusal::Refusal;

// The terms of a book with bindings: their rows, the term that each stands for, and the name of its value.
#[derive(Clone, Copy)]
pub struct NamedTerms<'a> {
    pub rows: &'a [u32],
    pub roots: &'a [u32],
    pub names: &'a [u32],
}

// The entries of the argument pairs of two terms, and the number of entries with them.
#[derive(Clone, Copy)]
struct Arguments {
    entries: [u32; MAX_ARITY],
    count: usize,
}

// Whether an entry turned, and the number of entries after its visit, which is also one where none turned.
#[derive(Clone, Copy)]
pub struct Visited {
    pub turned: bool,
    pub count: usize,
}

// Places the argument pairs of the terms in rows `l` and `r`, left to right; 11 where they need more entries than the capacity.
fn place_all(
    terms: NamedTerms,
    entries: &mut [u32],
    capacity: usize,
    m: usize,
    l: usize,
    r: usize,
    index: &mut Index,
) -> Result<Arguments, Refusal>
    requires given { GivenTable (ToPlaceAllIn terms entries.old index.old capacity m l r) }
    requires left { term_words * l + 2 + at terms.rows.now (term_words * l + 1) ≤ length terms.rows.now }
    requires right { term_words * r + 2 + at terms.rows.now (term_words * r + 1) ≤ length terms.rows.now }
    ensures placed { Whatever (ToPlaceAllIn terms.entry entries.old index.old capacity m l r)
        (ArePlacedIn terms.entry entries.new index.new capacity l r result) }
    ensures same_slices { SameSlices index.old index.new }
{
    let first_left = TERM_WORDS * l + 2;
    let first_right = TERM_WORDS * r + 2;
    let arity = terms.rows[TERM_WORDS * l + 1] as usize;
    let mut numbers = [0; MAX_ARITY];
    let mut count = m;
    for j in 0..arity {
        let p = crate::place::place(
            terms.names,
            entries,
            capacity,
            count,
            terms.rows[first_left + j],
            terms.rows[first_right + j],
            index,
        )?;
        numbers[j] = p.entry;
        count = p.count;
    }
    Ok(Arguments {
        entries: numbers,
        count,
    })
}

// Turns the entry `e` in row `i`, where its argument pairs are placed: it takes the symbol and the count of the term `l`.
fn turn(rows: &[u32], entries: &mut [u32], i: usize, l: usize, e: Entry, args: Arguments) -> Visited
    requires { ToTurn rows.now entries.old i l }
    ensures { IsTurned rows.now entries.old entries.new i l e args result }
{
    let row = TERM_WORDS * l;
    let numbers = args.entries;
    let common = Entry {
        left: e.left,
        right: e.right,
        kind: 1,
        symbol: rows[row] - 1,
        count: rows[row + 1],
        arguments: numbers,
        same_as: e.same_as,
    };
    layout::entry::put_entry(entries, i, common);
    Visited {
        turned: true,
        count: args.count,
    }
}

// Visits entry `i`: a hole whose sides stand for terms of one symbol and one count turns common; 11 where its argument pairs need
// more entries than the capacity.
pub fn visit(
    terms: NamedTerms,
    entries: &mut [u32],
    capacity: usize,
    m: usize,
    i: usize,
    index: &mut Index,
) -> Result<Visited, Refusal>
    requires { GivenTable (ToVisitIn terms entries.old index.old capacity m i) }
    ensures visited { Whatever (ToVisitIn terms.entry entries.old index.old capacity m i)
        (IsVisitedIn entries.new index.new capacity i result) }
    ensures same_slices { SameSlices index.old index.new }
{
    let e = layout::entry::entry_at(entries, i);
    if e.kind != 0 {
        return Ok(Visited {
            turned: false,
            count: m,
        });
    }
    let left = e.left as usize;
    let right = e.right as usize;
    let l = terms.roots[left] as usize;
    let r = terms.roots[right] as usize;
    if !layout::limits::alike(terms.rows, l, r) {
        return Ok(Visited {
            turned: false,
            count: m,
        });
    }
    let args = place_all(terms, entries, capacity, m, l, r, index)?;
    Ok(turn(terms.rows, entries, i, l, e, args))
}
