// Same-as of a pair table in slices, as its definition says (specs/same_as/Settling.antt; document 01, "The pair table"). The slices are those
// of module `visit`.

ghost use Rattle.model.specs.Table.{settle};
ghost use Rattle.table.specs.place.Stands.{HoldsTable, GivenTable, Whatever};
ghost use Rattle.table.specs.same_as.Settling.{ToSettleIn};

use pairs::Lookup;

// Sets same-as of the `m` entries: of each, the first entry with its two names.
pub fn settle(entries: &mut [u32], m: usize, index: Lookup)
    requires { GivenTable (ToSettleIn entries.old index m) }
    ensures { Whatever (ToSettleIn entries.old index.entry m)
        (λ b β es. HoldsTable entries.new (settle b β es)) }
{
    for i in 0..m {
        let left = index.lefts[i];
        let right = index.rights[i];
        let found = index.find(m, left, right);
        let mut e = layout::entry::entry_at(entries, i);
        e.same_as = found as u32;
        layout::entry::put_entry(entries, i, e);
    }
}
