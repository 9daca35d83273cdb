// What each term stands for, and whether a variable occurs in a value: plain loops along a list of terms in which all that a
// value is made of comes first (module `order`, specs/order/Order.antt).

ghost use Rattle.std.specs.Prelude.{◌≡◌, ◌++◌, map, ℕ, ◌<◌, ◌≤◌, length, drop};
ghost use Rattle.model.specs.Lists.{from};
ghost use Rattle.model.specs.Term.{deref_step, deref, val, occurs};
ghost use Rattle.layout.specs.limits.Rows.{at, node_of, binding_of};
ghost use Rattle.values.specs.term.Terms.{book, bound};
ghost use Rattle.values.specs.roots.Reading.{Listed};
ghost use Rattle.values.specs.roots.Flags.{flagged, any, occurs_step};

use crate::term::Terms;

// What term `t` stands for, where `roots` says it of the term that it may be bound to.
#[tactic(auto, using(crate::proofs::roots::Reading::bound_below), unfolding(model::specs::Term::deref_step))]
fn root_of(terms: Terms, roots: &[u32], t: u32) -> u32
    requires { (t < terms.n) × (terms.n ≤ length roots.now) }
    ensures { result ≡ deref_step (at roots.now) t (node_of terms.entry.rows.now t) (binding_of terms.entry.bindings.now t) }
{
    match (terms.arguments(t), terms.bound(t)) {
        (Some(_), _) => t,
        (None, Some(u)) => roots[u as usize],
        (None, None) => t,
    }
}

// What each of the terms stands for, into `roots`.
pub fn roots(terms: Terms, list: &[u32], roots: &mut [u32])
    requires { Listed terms.rows.now terms.bindings.now list.now terms.n × (terms.n ≤ length roots.old) }
    ensures { roots.new ≡ map (deref (book terms.entry) (bound terms.entry) terms.entry.n) (from 0 terms.entry.n) ++ drop terms.entry.n roots.old }
{
    for &t in &list[..terms.n as usize] {
        roots[t as usize] = root_of(terms, roots, t);
    }
}

// Whether one of the terms `args` has a flag that stands.
fn any_flagged(args: &[u32], flags: &[u32]) -> bool
    requires { (j : ℕ) → j < length args.now → at args.now j < length flags.now }
    ensures { result ≡ any (flagged flags.now) args.now }
{
    args.iter().any(|&a| flags[a as usize] != 0)
}

// Whether `v` occurs in the value of term `t`, where `flags` says it of the terms one step down.
#[tactic(auto, using(crate::proofs::roots::Reading::bound_below, crate::proofs::roots::Reading::arguments_below), unfolding(crate::specs::roots::Flags::occurs_step, crate::specs::roots::Flags::flagged))]
fn occurs_step(terms: Terms, flags: &[u32], v: u32, t: u32) -> bool
    requires { (t < terms.n) × (terms.n ≤ length flags.now) }
    ensures { result ≡ occurs_step (flagged flags.now) v t (node_of terms.entry.rows.now t) (binding_of terms.entry.bindings.now t) }
{
    match (terms.arguments(t), terms.bound(t)) {
        (Some(args), _) => any_flagged(args, flags),
        (None, Some(u)) => flags[u as usize] != 0,
        (None, None) => v == t,
    }
}

// Whether the variable `v` occurs in the value of term `t`: flags along the list, up to that term's own. A flag is a word, 1 or 0,
// since `flags` is lent scratch of words.
pub fn occurs_in(terms: Terms, flags: &mut [u32], list: &[u32], v: u32, t: u32) -> bool
    requires listed { Listed terms.rows.now terms.bindings.now list.now terms.n × (terms.n ≤ length flags.old) }
    requires t_lt_n { t < terms.n }
    ensures { result ≡ occurs v (val (book terms.entry) (bound terms.entry) t) }
{
    for &u in &list[..terms.n as usize] {
        let stands = occurs_step(terms, flags, v, u);
        if u == t {
            return stands;
        }
        flags[u as usize] = u32::from(stands);
    }
    flags[t as usize] != 0
}
