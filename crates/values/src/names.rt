// The name of every term: the lowest term with its value. Terms get classes first, along a list in which all that a value is
// made of comes first: the first term along it with the same value. An application is of the class of an earlier one where
// symbol and classes of arguments are the same (its key); a hash of the key finds that one (specs/names/Keys.antt, specs/names/Classes.antt).

ghost use Rattle.std.specs.Prelude.{◌≡◌, ◌++◌, map, ℕ, ◌<◌, ◌≤◌, length, drop};
ghost use Rattle.model.specs.Lists.{from, eq_numbers};
ghost use Rattle.model.specs.Term.{var, name};
ghost use Rattle.layout.specs.limits.Rows.{at, node_of};
ghost use Rattle.pairs.specs.Lent.{SameSlices};
ghost use Rattle.values.specs.term.Terms.{book, bound};
ghost use Rattle.values.specs.roots.Reading.{Listed};
ghost use Rattle.values.specs.names.Keys.{mixed, hash_from, key_at, FirstTerms, Earlier};
ghost use Rattle.values.specs.names.Classes.{Classable, class_of, Scratch, SameClasses, Seen, Nameable, lowest_same};

use crate::term::Terms;
use pairs::Index;

// The hash `h` with `c` in it. `c` is in the factor too, so that what it changes depends on the numbers before it: a hash that is
// linear in them could be met by lists built for it.
#[tactic(auto, unfolding(crate::specs::names::Keys::mixed))]
fn mix(h: u64, c: u32) -> u64
    ensures { result ≡ mixed h c }
{
    let low = h % 4294967296;
    let high = h / 4294967296;
    let factor = 2654435843 + u64::from(c) % 1073741824;
    low * factor + high + u64::from(c)
}

// The hash of `symbol` and the classes of `args`.
fn application_hash(symbol: u32, args: &[u32], classes: &[u32]) -> u64
    requires { (j : ℕ) → j < length args.now → at args.now j < length classes.now }
    ensures { result ≡ hash_from symbol (map (at classes.now) args.now) }
{
    let mut h = u64::from(symbol);
    for &a in args {
        h = mix(h, classes[a as usize]);
    }
    h
}

// The hash of the key of term `t`.
fn key_hash(terms: Terms, classes: &[u32], t: u32) -> u64
    requires { (t < terms.n) × (terms.n ≤ length classes.now) }
    ensures { result ≡ hash_from 0 (key_at terms.entry.rows.now classes.now t) }
{
    match terms.arguments(t) {
        Some(args) => application_hash(terms.symbol(t), args, classes),
        None => 0,
    }
}

// Whether the classes of `args` and of `others` are the same, one by one.
fn same_classes(args: &[u32], others: &[u32], classes: &[u32]) -> bool
    requires args { (j : ℕ) → j < length args.now → at args.now j < length classes.now }
    requires others { (j : ℕ) → j < length others.now → at others.now j < length classes.now }
    ensures { result ≡ eq_numbers (map (at classes.now) args.now) (map (at classes.now) others.now) }
{
    if args.len() != others.len() {
        return false;
    }
    for (&a, &o) in args.iter().zip(others) {
        if classes[a as usize] != classes[o as usize] {
            return false;
        }
    }
    true
}

// Whether the application `t` and the term `u` have the same key.
fn same_key(terms: Terms, classes: &[u32], t: u32, u: u32) -> bool
    requires terms { (t < terms.n) × (u < terms.n) }
    requires classes { terms.n ≤ length classes.now }
    requires application { node_of terms.rows.now t ≡ var → ⊥ }
    ensures { result ≡ eq_numbers (key_at terms.entry.rows.now classes.now t) (key_at terms.entry.rows.now classes.now u) }
{
    match (terms.arguments(t), terms.arguments(u)) {
        (Some(args), Some(others)) => {
            terms.symbol(t) == terms.symbol(u) && same_classes(args, others, classes)
        }
        (Some(_), None) => false,
        (None, _) => false,
    }
}

// The place of a term with the key of the application `t` among the first `k` of the list.
fn search_keys(terms: Terms, classes: &[u32], list: &[u32], k: usize, t: u32) -> Option<usize>
    requires terms { FirstTerms list.now terms.n k × (t < terms.n) }
    requires classes { terms.n ≤ length classes.now }
    requires application { node_of terms.rows.now t ≡ var → ⊥ }
    ensures { Earlier terms.entry.rows.now classes.now list.now k t result }
{
    list[..k]
        .iter()
        .position(|&u| same_key(terms, classes, t, u))
}

// The same, where `place` is the only place to look at if the hash of no other key is that of `t`, or `k` if that of none is (what
// `Index::push` answers).
fn earlier(
    terms: Terms,
    classes: &[u32],
    list: &[u32],
    k: usize,
    t: u32,
    place: usize,
) -> Option<usize>
    requires terms { FirstTerms list.now terms.n k × (t < terms.n) }
    requires classes { terms.n ≤ length classes.now }
    requires application { node_of terms.rows.now t ≡ var → ⊥ }
    requires place { (place ≤ k) × (place ≡ k → (j : ℕ) → j < k → key_at terms.rows.now classes.now t ≡ key_at terms.rows.now classes.now (at list.now j) → ⊥) }
    ensures { Earlier terms.entry.rows.now classes.now list.now k t result }
{
    if place == k {
        return None;
    }
    if same_key(terms, classes, t, list[place]) {
        return Some(place);
    }
    search_keys(terms, classes, list, k, t)
}

// The class of the term at place `k` of the list, where `classes` has the classes of the terms before it.
fn class_of(terms: Terms, classes: &[u32], list: &[u32], k: usize, place: usize) -> u32
    requires { Classable terms.rows.now terms.bindings.now classes.now list.now terms.n k place }
    ensures { result ≡ class_of terms.entry.rows.now terms.entry.bindings.now list.now terms.entry.n (at list.now k) }
{
    let t = list[k];
    match (terms.arguments(t), terms.bound(t)) {
        (Some(_), _) => match earlier(terms, classes, list, k, t, place) {
            Some(j) => classes[list[j] as usize],
            None => t,
        },
        (None, Some(u)) => classes[u as usize],
        (None, None) => t,
    }
}

// The class of each of the terms, into `classes`. The index is scratch.
fn classify(terms: Terms, classes: &mut [u32], list: &[u32], index: &mut Index)
    requires scratch { Scratch classes.old index.old.lefts.now index.old.rights.now index.old.cells.now terms.n }
    requires listed { Listed terms.rows.now terms.bindings.now list.now terms.n }
    ensures classes { SameClasses (book terms.entry) (bound terms.entry) classes.new terms.entry.n }
    ensures same_slices { SameSlices index.old index.new }
{
    index.clear();
    for (k, &t) in list[..terms.n as usize].iter().enumerate() {
        let h = key_hash(terms, classes, t);
        let high = (h / 4294967296) as u32;
        let low = (h % 4294967296) as u32;
        let place = index.push(k, high, low);
        classes[t as usize] = class_of(terms, classes, list, k, place);
    }
}

// `seen` where that is a term below `t` with its class, and else `t`.
fn seen_or(classes: &[u32], seen: u32, t: u32) -> u32
    requires { t < length classes.now }
    ensures { Seen classes.now seen t result }
{
    if t <= seen {
        return t;
    }
    if classes[seen as usize] == classes[t as usize] {
        return seen;
    }
    t
}

// For each of the `n` terms the lowest with its class, into `names`. `firsts` is scratch: it need not be cleared, since what it
// has for a class counts only where that is a term passed with this class.
fn lowest_of_class(classes: &[u32], n: u32, names: &mut [u32], firsts: &mut [u32])
    requires { Nameable classes.now names.old firsts.old n }
    ensures { names.new ≡ map (lowest_same classes.now n) (from 0 n) ++ drop n names.old }
{
    for t in 0..n {
        let i = t as usize;
        let class = classes[i] as usize;
        let low = seen_or(classes, firsts[class], t);
        firsts[class] = low;
        names[i] = low;
    }
}

// The name of each of the terms, the lowest term with its value, into `names`. `classes` and `index` are scratch.
pub fn names(terms: Terms, classes: &mut [u32], list: &[u32], names: &mut [u32], index: &mut Index)
    requires listed { Listed terms.rows.now terms.bindings.now list.now terms.n }
    requires scratch { Scratch classes.old index.old.lefts.now index.old.rights.now index.old.cells.now terms.n }
    requires names { terms.n ≤ length names.old }
    ensures names { names.new ≡ map (name (book terms.entry) (bound terms.entry)) (from 0 terms.entry.n) ++ drop terms.entry.n names.old }
    ensures same_slices { SameSlices index.old index.new }
{
    classify(terms, classes, list, index);
    lowest_of_class(classes, terms.n, names, index.lefts);
}
