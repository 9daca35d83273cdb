// The test of same-as in a loaded table, and with it all tests that look at values and at pairs of entries, on names and roots that
// are computed already (specs/kinds/Known.antt, specs/entries/SameAsTest.antt). They only read the table; the index is
// scratch.

ghost use Rattle.std.specs.Prelude.{◌≡◌, ◌&&◌, T};
ghost use Rattle.model.specs.Lists.{all};
ghost use Rattle.model.specs.Area.{distinct};
ghost use Rattle.layout.specs.limits.Rows.{table_of};
ghost use Rattle.soundness.specs.sound.Sound.{values_ok};
ghost use Rattle.soundness.specs.kinds.Known.{Named, Known, GivenBook, TestAnswers};
ghost use Rattle.pairs.specs.Lent.{SameSlices, RoomIn};
ghost use Rattle.soundness.specs.declared.entries.SameAs.{SameAs};
ghost use Rattle.soundness.specs.entries.SameAsTest.{same_as_right, all_right};

use layout::limits::ENTRY_WORDS;
use pairs::Index;

// What the test of same-as finds.
#[derive(Clone, Copy)]
enum SameAs {
    // One is not right.
    Wrong,
    // All are right, and no two entries have the same two names, so that none hold the same two terms.
    Apart,
    // All are right, and two entries have the same two names.
    Shared,
}

// Whether the same-as of each of the `m` entries is the first entry with its two names.
fn same_as_ok(names: &[u32], entries: &[u32], m: usize, index: &mut Index) -> SameAs
    requires known { GivenBook (λ b β. Named b β names.now entries.now m) }
    requires room { RoomIn index.old m }
    ensures right { TestAnswers (λ b β. Named b β names.now entries.now m)
        (λ b β. all (same_as_right b β (table_of entries.now m)) (table_of entries.now m)) (all_right result) }
    ensures apart { result ≡ SameAs.Apart → T (distinct (table_of entries.now m)) }
    ensures same_slices { SameSlices index.old index.new }
{
    index.clear();
    let mut apart = true;
    for i in 0..m {
        let row = ENTRY_WORDS * i;
        let left = names[entries[row] as usize];
        let right = names[entries[row + 1] as usize];
        let place = index.push(i, left, right);
        if place != entries[row + ENTRY_WORDS - 1] as usize {
            return SameAs::Wrong;
        }
        if place != i {
            apart = false;
        }
    }
    if apart { SameAs::Apart } else { SameAs::Shared }
}

// Whether the table of `m` entries passes the tests that look at values and at pairs of entries.
pub fn table_ok(
    rows: &[u32],
    roots: &[u32],
    names: &[u32],
    entries: &[u32],
    m: usize,
    index: &mut Index,
) -> bool
    requires known { GivenBook (λ b β. Known b β rows.now roots.now names.now entries.now m) }
    requires room { RoomIn index.old m }
    ensures right { TestAnswers (λ b β. Known b β rows.now roots.now names.now entries.now m)
        (λ b β. all (values_ok b β (table_of entries.now m)) (table_of entries.now m)
        && distinct (table_of entries.now m)) result }
    ensures same_slices { SameSlices index.old index.new }
{
    if !crate::kinds::kinds_ok(rows, roots, names, entries, m) {
        return false;
    }
    match same_as_ok(names, entries, m, index) {
        SameAs::Wrong => false,
        SameAs::Apart => true,
        SameAs::Shared => crate::distinct::distinct_ok(entries, m, index),
    }
}
