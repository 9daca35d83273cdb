// Placing a pair in a pair table in slices (specs/place/Stands.antt, specs/place/Placing.antt; document 01, "The pair table"). `entries` has a row
// for each entry of the capacity, of which the first `m` hold the table. The names of the two sides of each entry
// are indexed.

ghost use Rattle.pairs.specs.Lent.{SameSlices};
ghost use Rattle.table.specs.place.Stands.{GivenTable, Whatever};
ghost use Rattle.table.specs.place.Placing.{ToPlaceIn, IsPlacedIn};

use layout::entry::Entry;
use layout::limits::MAX_ARITY;
use pairs::Index;
use refusal::Refusal;

// The entry of a pair, and the number of entries with it.
#[derive(Clone, Copy)]
pub struct Placed {
    pub entry: u32,
    pub count: usize,
}

// Places the terms `l` and `r`: the lowest entry with their names, or else a hole at the next free number; 11 where that is beyond
// the capacity.
pub fn place(
    names: &[u32],
    entries: &mut [u32],
    capacity: usize,
    m: usize,
    l: u32,
    r: u32,
    index: &mut Index,
) -> Result<Placed, Refusal>
    requires { GivenTable (ToPlaceIn names.now entries.old index.old capacity m l r) }
    ensures placed { Whatever (ToPlaceIn names.now entries.old index.old capacity m l r)
        (IsPlacedIn entries.new index.new capacity l r result) }
    ensures same_slices { SameSlices index.old index.new }
{
    let left = names[l as usize];
    let right = names[r as usize];
    let found = index.find(m, left, right);
    if found < m {
        return Ok(Placed {
            entry: found as u32,
            count: m,
        });
    }
    if capacity <= m {
        return Err(Refusal::Full);
    }
    let hole = Entry {
        left: l,
        right: r,
        kind: 0,
        symbol: 0,
        count: 0,
        arguments: [0; MAX_ARITY],
        same_as: m as u32,
    };
    layout::entry::put_entry(entries, m, hole);
    index.push(m, left, right);
    Ok(Placed {
        entry: m as u32,
        count: m + 1,
    })
}
