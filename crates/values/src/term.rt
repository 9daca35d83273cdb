// The terms of a book with bindings: of each its symbol and its arguments in the rows, and what it is bound to in the words.

ghost use Rattle.std.specs.Prelude.{◌≡◌, ◌-◌, ◌*◌, ◌<◌, MatchOption};
ghost use Rattle.std.proofs.Math.Option.{none, some};
ghost use Rattle.std.proofs.Props.{props};
ghost use Rattle.model.specs.Area.{term_words};
ghost use Rattle.model.specs.Term.{var, app};
ghost use Rattle.layout.specs.limits.Rows.{at, node_of, binding_of, GoodTerms};

use layout::limits::TERM_WORDS;

// The first `n` rows and words hold a book that obeys the rules of terms, with variables bound to terms.
#[derive(Clone, Copy)]
pub struct Terms<'a> {
    pub rows: &'a [u32],
    pub bindings: &'a [u32],
    pub n: u32,
    pub ghost good: { GoodTerms rows.now bindings.now n } by { Prim.hlevel props },
}

impl<'a> Terms<'a> {
    // The first word of term `t`: 0 of a variable, and of an application its symbol plus 1.
    pub fn symbol(self, t: u32) -> u32
        requires { t < self.n }
        ensures { result ≡ at self.entry.rows.now (term_words * t) }
    {
        self.rows[TERM_WORDS * (t as usize)]
    }

    // The arguments of the application `t`, or none of a variable.
    pub fn arguments(self, t: u32) -> Option<&'a [u32]>
        requires { t < self.n }
        ensures { MatchOption result
            (node_of self.entry.rows.now t ≡ var)
            (λ args. node_of self.entry.rows.now t ≡ app (at self.entry.rows.now (term_words * t) - 1) args.now) }
    {
        let row = TERM_WORDS * (t as usize);
        if self.rows[row] == 0 {
            return None;
        }
        let first = row + 2;
        Some(&self.rows[first..first + self.rows[row + 1] as usize])
    }

    // The term that variable `t` is bound to, or none where it is free.
    pub fn bound(self, t: u32) -> Option<u32>
        requires { t < self.n }
        ensures { MatchOption result
            (binding_of self.entry.bindings.now t ≡ none)
            (λ u. binding_of self.entry.bindings.now t ≡ some u) }
    {
        self.bindings[t as usize].checked_sub(1)
    }
}
