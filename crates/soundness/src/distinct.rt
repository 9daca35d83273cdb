// The test of a loaded table that no two of its entries hold one pair of terms (document 01, "Areas"). It only reads the table;
// the index is scratch.

ghost use Rattle.std.specs.Prelude.{◌≡◌, ◌*◌, ◌≤◌, length};
ghost use Rattle.model.specs.Area.{entry_row_words, distinct};
ghost use Rattle.layout.specs.limits.Rows.{table_of};
ghost use Rattle.pairs.specs.Lent.{SameSlices, RoomIn};

use layout::limits::ENTRY_WORDS;
use pairs::Index;

// Whether no two of the `m` entries hold the same two term numbers.
pub fn distinct_ok(entries: &[u32], m: usize, index: &mut Index) -> bool
    requires rows { entry_row_words * m ≤ length entries.now }
    requires room { RoomIn index.old m }
    ensures distinct { result ≡ distinct (table_of entries.now m) }
    ensures same_slices { SameSlices index.old index.new }
{
    index.clear();
    for i in 0..m {
        let row = ENTRY_WORDS * i;
        let place = index.push(i, entries[row], entries[row + 1]);
        if place != i {
            return false;
        }
    }
    true
}
