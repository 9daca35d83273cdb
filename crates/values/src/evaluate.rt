// The values of the terms of a book with bindings: the terms in an order in which all that a value is made of comes first, what
// each term stands for, and its name.

ghost use Rattle.std.specs.Prelude.{◌≡◌, true};
ghost use Rattle.model.specs.Term.{acyclic};
ghost use Rattle.pairs.specs.Lent.{SameSlices};
ghost use Rattle.values.specs.term.Terms.{book, bound};
ghost use Rattle.values.specs.evaluate.Valued.{Valued, ValueRoom};

use crate::term::Terms;
use pairs::Index;

// Whether no value contains itself; then lists the terms, and finds what each stands for and its name. `roots` is scratch
// until the names are found, and `index` is scratch.
pub fn name_terms(
    terms: Terms,
    list: &mut [u32],
    roots: &mut [u32],
    names: &mut [u32],
    index: &mut Index,
) -> bool
    requires { ValueRoom list.old roots.old names.old index.old.lefts.now index.old.rights.now index.old.cells.now terms.n }
    ensures acyclic { result ≡ acyclic (book terms.entry) (bound terms.entry) }
    ensures values { result ≡ true → Valued terms.entry.rows.now terms.entry.bindings.now list.new roots.new names.new terms.entry.n }
    ensures same_slices { SameSlices index.old index.new }
{
    if !crate::order::order(terms, roots, list) {
        return false;
    }
    crate::names::names(terms, roots, list, names, index);
    crate::roots::roots(terms, list, roots);
    true
}
