// Terms in an order in which all that a value is made of comes first (specs/order/Order.antt), found by a walk through the terms
// (specs/order/Marking.antt). A walk that meets a term in progress has found a value that contains itself.

ghost use Rattle.std.specs.Prelude.{◌≡◌, true, [], ◌∷◌, ◌≤◌, ◌<◌, length, get_or, take};
ghost use Rattle.model.specs.Term.{acyclic};
ghost use Rattle.values.specs.term.Terms.{book, bound};
ghost use Rattle.values.specs.order.Order.{parts, Ordered};
ghost use Rattle.values.specs.order.Marking.{Walkable, WalkAnswers};

use crate::term::Terms;

// The marks of a term, behind the 0 that clearing writes: while it is walked, and once it is finished. They are words, since
// what is lent for them is scratch of words.
const IN_PROGRESS: u32 = 1;

const FINISHED: u32 = 2;

// How many terms the value of `t` is made of, one step down.
fn part_count(terms: &Terms, t: u32) -> usize
    requires { t < terms.now.n }
    ensures { result ≡ length (parts (book terms.now) (bound terms.now) t) }
{
    match (terms.arguments(t), terms.bound(t)) {
        (Some(args), _) => args.len(),
        (None, Some(_)) => 1,
        (None, None) => 0,
    }
}

// The `i`-th of them.
fn part(terms: &Terms, t: u32, i: usize) -> u32
    requires t_lt_n { t < terms.now.n }
    requires i_in_bounds { i < length (parts (book terms.now) (bound terms.now) t) }
    ensures { result ≡ get_or (parts (book terms.now) (bound terms.now) t) i 0 }
{
    match terms.arguments(t) {
        Some(args) => args[i],
        None => terms.bindings[t as usize] - 1,
    }
}

// Walks term `t`: what its value is made of first, then the term itself, at the next place of the list. Answers how many terms
// are finished behind it, or none where it met a term in progress. The terms are lent, which keeps them out of each frame of the
// recursion.
#[cycle(walk_arguments_walk_term)]
fn walk_term(terms: &Terms, t: u32, marks: &mut [u32], list: &mut [u32], done: u32) -> Option<u32>
    requires { Walkable terms.now.rows.now terms.now.bindings.now terms.now.n t marks.old list.old done }
    ensures { WalkAnswers terms.now.rows.now terms.now.bindings.now terms.now.n (t ∷ [])
        marks.old marks.new list.new result }
{
    let mark = marks[t as usize];
    if mark == FINISHED {
        return Some(done);
    }
    if mark == IN_PROGRESS {
        return None;
    }
    marks[t as usize] = IN_PROGRESS;
    let place = walk_arguments(terms, t, marks, list, done)?;
    marks[t as usize] = FINISHED;
    list[place as usize] = t;
    Some(place + 1)
}

// Walks what the value of `t` is made of, one term after the other. Most are finished already, and need no call.
#[cycle(walk_arguments_walk_term)]
fn walk_arguments(
    terms: &Terms,
    t: u32,
    marks: &mut [u32],
    list: &mut [u32],
    done: u32,
) -> Option<u32>
    requires { Walkable terms.now.rows.now terms.now.bindings.now terms.now.n t marks.old list.old done }
    ensures { WalkAnswers terms.now.rows.now terms.now.bindings.now terms.now.n
        (parts (book terms.now) (bound terms.now) t)
        marks.old marks.new list.new result }
{
    let mut place = done;
    for i in 0..part_count(terms, t) {
        let u = part(terms, t, i);
        if marks[u as usize] != FINISHED {
            place = walk_term(terms, u, marks, list, place)?;
        }
    }
    Some(place)
}

// Whether no value contains itself; then the list has the terms, each behind what its value is made of. The marks are
// scratch.
pub fn order(terms: Terms, marks: &mut [u32], list: &mut [u32]) -> bool
    requires n_in_bounds { terms.n ≤ length marks.old }
    requires n_in_bounds_2 { terms.n ≤ length list.old }
    ensures value { result ≡ acyclic (book terms.entry) (bound terms.entry) }
    ensures ordered { result ≡ true
        → Ordered (book terms.entry) (bound terms.entry) (take terms.entry.n list.new) }
{
    layout::clearing::clear(marks, terms.n as usize);
    let mut done = 0;
    for t in 0..terms.n {
        match walk_term(&terms, t, marks, list, done) {
            Some(place) => done = place,
            None => return false,
        }
    }
    true
}
