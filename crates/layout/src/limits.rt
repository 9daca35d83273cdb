// The numbers of an area's layout and the limits, each once (docs/LAYOUT.md).
// Only crate `office` and the session program name the office's; functions below take the limits as parameters.

ghost use Rattle.std.specs.Prelude.{◌≡◌, ◌+◌, ◌*◌, ◌≤◌, length};
ghost use Rattle.model.specs.Term as Term;
ghost use Rattle.model.specs.Limits.{office};
ghost use Rattle.model.specs.Area.{term_words};
ghost use Rattle.layout.specs.limits.Rows.{at, node_of};

// Bytes in a word.
pub const WORD_BYTES: usize = 4;

// The most arguments of a symbol, and the largest symbol.
pub const MAX_ARITY: usize = 8;

pub const MAX_SYMBOL: usize = 4095;

// Words in the header, in a term's row and in an entry's row.
pub const HEADER_WORDS: usize = 4;

pub const TERM_WORDS: usize = 2 + MAX_ARITY;

pub const ENTRY_WORDS: usize = 6 + MAX_ARITY;

// What limits an area: terms of a book, the largest capacity in entries, and lines; none is above the office's.
#[derive(Clone, Copy)]
pub struct Limits {
    pub terms: usize,
    pub capacity: usize,
    pub lines: usize,
    ghost modest: { (terms ≤ office.max_terms) × (capacity ≤ office.max_capacity) × (lines ≤ office.max_lines) },
}

// The office's limits.
pub const OFFICE_TERMS: usize = 1024;

pub const OFFICE_CAPACITY: usize = 2048;

pub const OFFICE_LINES: usize = 256;

pub const OFFICE: Limits = Limits {
    terms: OFFICE_TERMS,
    capacity: OFFICE_CAPACITY,
    lines: OFFICE_LINES,
};

// The words of the rows of the longest book.
pub const ROWS: usize = TERM_WORDS * OFFICE_TERMS;

// Whether the terms in rows `l` and `r` are applications of one symbol to as many arguments.
pub fn alike(rows: &[u32], l: usize, r: usize) -> bool
    requires left { term_words * l + 2 + at rows.now (term_words * l + 1) ≤ length rows.now }
    requires right { term_words * r + 2 + at rows.now (term_words * r + 1) ≤ length rows.now }
    ensures { result ≡ Term.alike (node_of rows.now l) (node_of rows.now r) }
{
    let left = TERM_WORDS * l;
    let right = TERM_WORDS * r;
    rows[left] != 0 && rows[left] == rows[right] && rows[left + 1] == rows[right + 1]
}
