// A pair of terms placed in a loaded table, which is then walked through (specs/grow/Growing.antt; document 01, "Add a line").

ghost use Rattle.pairs.specs.Lent.{SameSlices};
ghost use Rattle.table.specs.place.Stands.{GivenTable, Whatever};
ghost use Rattle.step.specs.grow.Growing.{ToGrowIn, IsGrownIn};

use pairs::Index;
use refusal::Refusal;
use table::place::Placed;
use table::visit::NamedTerms;

// Places the terms `l` and `r` in the loaded table of `m` entries and walks it through; 11 where that needs more entries than the
// capacity. The index is scratch.
pub fn grow(
    terms: NamedTerms,
    entries: &mut [u32],
    capacity: usize,
    m: usize,
    l: u32,
    r: u32,
    index: &mut Index,
) -> Result<Placed, Refusal>
    requires { GivenTable (ToGrowIn terms entries.old index.old capacity m l r) }
    ensures grown { Whatever (ToGrowIn terms.entry entries.old index.old capacity m l r)
        (IsGrownIn entries.new index.new capacity l r result) }
    ensures same_slices { SameSlices index.old index.new }
{
    table::index::index(terms.names, entries, m, index);
    let p = table::place::place(terms.names, entries, capacity, m, l, r, index)?;
    let w = table::saturate::walk(terms, entries, capacity, p.count, index)?;
    Ok(Placed {
        entry: p.entry,
        count: w.count,
    })
}
