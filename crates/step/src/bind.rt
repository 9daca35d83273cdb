// Fixing a choice on a loaded state (specs/bind/Choosing.antt; document 01, "Fix a choice").

ghost use Rattle.std.specs.Prelude.{◌≡◌, List, ℕ, ◌+◌, ◌*◌, ◌<◌, ◌≤◌, length};
ghost use Rattle.model.specs.Limits.{Limits};
ghost use Rattle.model.specs.Step as Step;
ghost use Rattle.model.specs.Step.{is_free};
ghost use Rattle.model.specs.Area.{term_words};
ghost use Rattle.layout.specs.limits.Rows.{node_of, binding_of, loaded_state};
ghost use Rattle.layout.specs.header.Held.{held};
ghost use Rattle.pairs.specs.Lent.{SameSlices};
ghost use Rattle.values.specs.roots.Reading.{Listed};
ghost use Rattle.values.specs.term.Terms.{book, bound};
ghost use Rattle.step.specs.declared.answer.Step.TheVariants.{Bind};
ghost use Rattle.refusal.specs.Numbers.{number};
ghost use Rattle.step.specs.answer.Stepped.{answer_of, header_after, Gives};
ghost use Rattle.step.specs.bind.Choosing.{Asked, GivenLines, early_refusal};

use crate::answer::Stepped;
use layout::header::Header;
use pairs::Index;
use refusal::Refusal;
use values::term::Terms;

// Whether the term `v` is a free variable.
#[tactic(auto, unfolding(model::specs::Step::is_free))]
fn is_free(terms: Terms, v: u32) -> bool
    requires { v < terms.n }
    ensures { result ≡ is_free (node_of terms.entry.rows.now v) (binding_of terms.entry.bindings.now v) }
{
    match (terms.arguments(v), terms.bound(v)) {
        (None, None) => true,
        _ => false,
    }
}

// The tests of the choice (`v`, `t`) before the walk: 8, 9 or 10 where one refuses it. `flags` is scratch.
fn early_refusal(
    terms: Terms,
    flags: &mut [u32],
    list: &[u32],
    v: u32,
    t: u32,
) -> Result<(), Refusal>
    requires { Listed terms.rows.now terms.bindings.now list.now terms.n × (terms.n ≤ length flags.old) }
    ensures { number result ≡ early_refusal (book terms.entry) (bound terms.entry) v t }
{
    if terms.n <= v {
        return Err(Refusal::NamesNothing);
    }
    if terms.n <= t {
        return Err(Refusal::NamesNothing);
    }
    if !is_free(terms, v) {
        return Err(Refusal::NotFree);
    }
    if values::roots::occurs_in(terms, flags, list, v, t) {
        return Err(Refusal::Occurs);
    }
    Ok(())
}

// Binds the variable `v` to the term `t`: 8, 9, 10, 11, or how many entries turned and how many were appended. Where it is
// refused, what the slices hold is left free; the index is scratch.
pub fn bind(
    h: Header,
    rows: &[u32],
    bindings: &mut [u32],
    list: &mut [u32],
    roots: &mut [u32],
    names: &mut [u32],
    entries: &mut [u32],
    v: u32,
    t: u32,
    index: &mut Index,
) -> Result<Stepped, Refusal>
    requires { GivenLines (Asked h rows.now bindings.old list.old roots.old names.old entries.old index.old.lefts.now index.old.rights.now index.old.cells.now) }
    ensures chosen { (lim : Limits) (lines : List ℕ)
        → Asked h rows.now bindings.old list.old roots.old names.old entries.old index.old.lefts.now index.old.rights.now index.old.cells.now lim lines
        → Gives lim (Bind v t) (Step.bind (loaded_state (held h rows.now bindings.old lines entries.old)) v t)
        (answer_of result) (held (header_after h result) rows.now bindings.new lines entries.new) }
    ensures same_slices { SameSlices index.old index.new }
{
    let n = h.terms;
    early_refusal(Terms { rows, bindings, n }, index.cells, list, v, t)?;
    bindings[v as usize] = t + 1;
    let terms = Terms { rows, bindings, n };
    crate::rebuild::rebuild(h, terms, list, roots, names, entries, index)
}
