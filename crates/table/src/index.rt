// The index of a pair table in slices, as its definition says (specs/index/Indexing.antt; document 01, "The pair table"). The slices are
// those of module `visit`.

ghost use Rattle.pairs.specs.Lent.{SameSlices};
ghost use Rattle.table.specs.place.Stands.{GivenTable, Whatever};
ghost use Rattle.table.specs.index.Indexing.{ToIndexIn, IsIndexedIn};

use pairs::Index;

// Builds the index of the table of `m` entries: their names are pushed in order.
pub fn index(names: &[u32], entries: &[u32], m: usize, index: &mut Index)
    requires { GivenTable (ToIndexIn names.now entries.now index.old m) }
    ensures indexed { Whatever (ToIndexIn names.now entries.now index.old m) (IsIndexedIn index.new m) }
    ensures same_slices { SameSlices index.old index.new }
{
    index.clear();
    for i in 0..m {
        let e = layout::entry::entry_at(entries, i);
        let left = names[e.left as usize];
        let right = names[e.right as usize];
        index.push(i, left, right);
    }
}
