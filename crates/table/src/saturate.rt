// The walk of a pair table in slices, as its definition says (specs/saturate/Walking.antt; document 01, "The pair table"). The slices are those
// of module `visit`.

ghost use Rattle.pairs.specs.Lent.{SameSlices};
ghost use Rattle.table.specs.place.Stands.{GivenTable, Whatever};
ghost use Rattle.table.specs.saturate.Walking.{ToWalkIn, IsWalkedIn};

use crate::visit::NamedTerms;
use pairs::Index;
use refusal::Refusal;

// How many of the old entries turned, and the number of entries after the walk.
#[derive(Clone, Copy)]
pub struct Walked {
    pub turned: usize,
    pub count: usize,
}

// Visits the entries from the first on, appended ones included; 11 where that needs more entries than the capacity.
pub fn walk(
    terms: NamedTerms,
    entries: &mut [u32],
    capacity: usize,
    m: usize,
    index: &mut Index,
) -> Result<Walked, Refusal>
    requires { GivenTable (ToWalkIn terms entries.old index.old capacity m) }
    ensures walked { Whatever (ToWalkIn terms.entry entries.old index.old capacity m)
        (IsWalkedIn entries.new index.new capacity result) }
    ensures same_slices { SameSlices index.old index.new }
{
    let mut w = Walked {
        turned: 0,
        count: m,
    };
    let mut i = 0;
    // a `while`: the bound grows where a visit appends entries
    while i < w.count {
        let v = crate::visit::visit(terms, entries, capacity, w.count, i, index)?;
        if v.turned && i < m {
            w.turned += 1;
        }
        w.count = v.count;
        i += 1;
    }
    Ok(w)
}
