// The tests of the loaded rows of terms and of their bindings that look at words alone (specs/rows/RowTests.antt). Rows are only
// read.

ghost use Rattle.std.specs.Prelude.{◌≡◌, ◌+◌, ◌*◌, ◌<◌, ◌≤◌, length};
ghost use Rattle.model.specs.Area.{term_words, binding_ok};
ghost use Rattle.layout.specs.limits.Rows.{node_of, book_of, binding_of};
ghost use Rattle.soundness.specs.rows.RowTests.{term_row_ok, term_rows_ok, bindings_ok};

use crate::rows::{all_below, zero_from};
use layout::limits::{MAX_ARITY, MAX_SYMBOL, TERM_WORDS};

// Whether row `t` is a term's row, with its numbers in their ranges.
fn term_row_ok(rows: &[u32], t: usize) -> bool
    requires { term_words * t + term_words ≤ length rows.now }
    ensures { result ≡ term_row_ok rows.now t }
{
    let start = TERM_WORDS * t;
    let end = start + TERM_WORDS;
    let tag = rows[start] as usize;
    let count = rows[start + 1] as usize;
    if tag == 0 {
        return all_below(&rows[start..end], 1);
    }
    if MAX_SYMBOL + 1 < tag || MAX_ARITY < count {
        return false;
    }
    let first = start + 2;
    let behind = first + count;
    all_below(&rows[first..behind], t) && all_below(&rows[behind..end], 1)
}

// Whether the rows are those of `n` terms, and the words behind them are 0.
pub fn term_rows_ok(rows: &[u32], n: usize) -> bool
    requires { term_words * n ≤ length rows.now }
    ensures { result ≡ term_rows_ok rows.now n }
{
    (0..n).all(|t| term_row_ok(rows, t)) && zero_from(rows, TERM_WORDS * n)
}

// Whether term `t` is not bound, or is a variable that is bound to one of `n` terms. Not yet `values::term::Terms`, whose ghost field is what
// this test is for.
fn binding_ok(rows: &[u32], bindings: &[u32], n: usize, t: usize) -> bool
    requires { (term_words * t + term_words ≤ length rows.now) × (t < length bindings.now) }
    ensures { result ≡ binding_ok (book_of rows.now n) (node_of rows.now t) (binding_of bindings.now t) }
{
    let bound = bindings[t] as usize;
    bound == 0 || (rows[TERM_WORDS * t] == 0 && bound <= n)
}

// Whether the words are the bindings of `n` terms, and the words behind them 0.
pub fn bindings_ok(rows: &[u32], bindings: &[u32], n: usize) -> bool
    requires { (term_words * n ≤ length rows.now) × (n ≤ length bindings.now) }
    ensures { result ≡ bindings_ok rows.now bindings.now n }
{
    (0..n).all(|t| binding_ok(rows, bindings, n, t)) && zero_from(bindings, n)
}
