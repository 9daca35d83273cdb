// Encoding a term: its length, and writing it (specs/encode/Encoding.antt).

ghost use Rattle.std.specs.Prelude.{◌≡◌, ◌+◌, ◌*◌, ◌≤◌, length, take, drop};
ghost use Rattle.leb128.specs.Number.{max_groups};
ghost use Rattle.model.specs.Area.{term_words};
ghost use Rattle.model.specs.BookBytes.{node_numbers};
ghost use Rattle.layout.specs.limits.Rows.{node_of};
ghost use Rattle.runs.specs.Runs.{small_words, over_at};
ghost use Rattle.book.specs.encode.Encoding.{RowFits, term_bytes};

// The words of row `t` that are numbers of the term: a variable's first, else the symbol, the count and the arguments.
fn numbers_of(rows: &[u32], t: usize) -> &[u32]
    requires { RowFits rows.now t }
    ensures few { length result.now ≤ term_words }
    ensures part { result.now ≡ take (length result.now) (drop (term_words * t) rows.now) }
    ensures numbers { result.now ≡ node_numbers (node_of rows.now t) }
{
    let row = &rows[layout::limits::TERM_WORDS * t..];
    if row[0] == 0 {
        return &row[..1];
    }
    &row[..2 + row[1] as usize]
}

// How many bytes the term in row `t` takes.
pub fn term_length(rows: &[u32], t: usize) -> usize
    requires { RowFits rows.now t }
    ensures few { result ≤ max_groups * term_words }
    ensures count { result ≡ length (term_bytes rows.now t) }
{
    let numbers = numbers_of(rows, t);
    runs::run_length(numbers)
}

// Writes the term in row `t` at place `at` of `out`, and gives the place behind it.
pub fn put_term(rows: &[u32], t: usize, out: &mut [u8], at: usize) -> usize
    requires { RowFits rows.now t × small_words rows.now × (at + length (term_bytes rows.now t) ≤ length out.old) }
    ensures next { result ≡ at + length (term_bytes rows.now t) }
    ensures bytes { out.new ≡ over_at out.old at (term_bytes rows.now t) }
{
    let numbers = numbers_of(rows, t);
    runs::put_run(numbers, out, at)
}
