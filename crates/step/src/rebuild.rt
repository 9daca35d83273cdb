// The table under bindings that have changed (specs/rebuild/Rebuilding.antt; document 01, "Fix a choice").

ghost use Rattle.std.specs.Prelude.{◌≡◌};
ghost use Rattle.layout.specs.limits.Rows.{book_of, bound_of, table_of};
ghost use Rattle.pairs.specs.Lent.{SameSlices};
ghost use Rattle.step.specs.settle.Settled.{IsSettled};
ghost use Rattle.step.specs.rebuild.Rebuilding.{ToRebuild};

use crate::answer::Stepped;
use layout::header::Header;
use pairs::Index;
use refusal::Refusal;
use table::visit::NamedTerms;
use values::term::Terms;

// The table under bindings that have changed: the terms are named anew, the sides of the entries indexed by their new names, and
// the table walked through. No value contains itself here, so the test of that never refuses.
pub fn rebuild(
    h: Header,
    terms: Terms,
    list: &mut [u32],
    roots: &mut [u32],
    names: &mut [u32],
    entries: &mut [u32],
    index: &mut Index,
) -> Result<Stepped, Refusal>
    requires terms { terms.n ≡ h.terms }
    requires table { ToRebuild h terms.rows.now terms.bindings.now list.old roots.old names.old entries.old index.old.lefts.now index.old.rights.now index.old.cells.now }
    ensures settled { IsSettled h entries.new result (book_of terms.entry.rows.now h.terms) (bound_of terms.entry.bindings.now h.terms) (table_of entries.old h.entries) }
    ensures same_slices { SameSlices index.old index.new }
{
    if !values::evaluate::name_terms(terms, list, roots, names, index) {
        return Err(Refusal::Occurs);
    }
    let m = h.entries as usize;
    table::index::index(names, entries, m, index);
    let named = NamedTerms {
        rows: terms.rows,
        roots,
        names,
    };
    crate::settle::walk_and_settle(h, named, entries, index)
}
