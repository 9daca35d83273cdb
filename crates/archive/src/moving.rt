// Term rows moved to new numbers, their arguments renumbered (specs/moving/Moving.antt). Storing and restoring are this, by a list and
// by its inverse.

ghost use Rattle.std.specs.Prelude.{◌≡◌, map, ℕ, ◌+◌, ◌*◌, ◌≤◌, ◌<◌, length, take, drop, replicate, ltb};
ghost use Rattle.std.proofs.lemmas.List.Edits.{sets};
ghost use Rattle.model.specs.Lists.{all};
ghost use Rattle.model.specs.Term.{arguments};
ghost use Rattle.model.specs.Area.{term_words};
ghost use Rattle.model.specs.Report.{number_bytes};
ghost use Rattle.model.specs.BookBytes.{node_numbers, book_bytes};
ghost use Rattle.model.specs.Archive.{renumbered, arguments_lower};
ghost use Rattle.layout.specs.limits.Rows.{at, node_of};
ghost use Rattle.book.specs.decode.Rows.{book_rows};
ghost use Rattle.book.specs.parse.Parts.{node_row};
ghost use Rattle.archive.specs.moving.Moving.{RowMoves, RowsMove, moved_book};

// What moving finds: whether each argument is then lower than its term (rule 5), and how many bytes the numbers take. No refusal
// beside a value: the clauses of `move_terms` say the bytes and the rows of every book, also where an argument is not lower.
#[derive(Clone, Copy)]
pub struct Moved {
    pub lower: bool,
    pub bytes: usize,
}

// Moves arguments, each renumbered. Lower is here: below `limit`.
fn move_arguments(arguments: &[u32], target: &[u32], moved: &mut [u32], limit: usize) -> Moved
    requires { (length arguments.now ≡ length moved.old) × ((j : ℕ) → j < length arguments.now → at arguments.now j < length target.now) }
    ensures lower { result.lower ≡ all (λ a. ltb a limit) (map (at target.now) arguments.now) }
    ensures bytes { result.bytes ≡ length (number_bytes (map (at target.now) arguments.now)) }
    ensures moved { moved.new ≡ map (at target.now) arguments.now }
{
    let mut lower = true;
    let mut bytes = 0;
    for (j, a) in arguments.iter().enumerate() {
        let b = target[*a as usize];
        moved[j] = b;
        bytes += leb128::length_of(b);
        if limit <= b as usize {
            lower = false;
        }
    }
    Moved { lower, bytes }
}

// Moves the term in row `from` to row `i`, which is all zero, its arguments renumbered.
fn move_term(rows: &[u32], from: usize, target: &[u32], moved: &mut [u32], i: usize) -> Moved
    requires { RowMoves rows.now from target.now × (term_words * i + term_words ≤ length moved.old) }
    ensures lower { result.lower ≡ all (λ a. ltb a i) (arguments (renumbered (at target.now) (node_of rows.now from))) }
    ensures bytes { result.bytes ≡ length (number_bytes (node_numbers (renumbered (at target.now) (node_of rows.now from)))) }
    ensures moved { moved.new ≡ sets moved.old (term_words * i) (node_row (renumbered (at target.now) (node_of rows.now from))) }
{
    let start = layout::limits::TERM_WORDS * from;
    let symbol = rows[start];
    if symbol == 0 {
        return Moved {
            lower: true,
            bytes: 1,
        };
    }
    let count = rows[start + 1];
    let place = layout::limits::TERM_WORDS * i;
    moved[place] = symbol;
    moved[place + 1] = count;
    let first = start + 2;
    let to = place + 2;
    let n = count as usize;
    let arguments = move_arguments(&rows[first..first + n], target, &mut moved[to..to + n], i);
    Moved {
        lower: arguments.lower,
        bytes: leb128::length_of(symbol) + leb128::length_of(count) + arguments.bytes,
    }
}

// Moves the book in the first rows, as many terms as `source` has, to `moved`, all zero before: its term i is the term `source[i]` of the
// rows, with `target[a]` for each argument a. The bytes are those of the whole book.
pub fn move_terms(rows: &[u32], source: &[u32], target: &[u32], moved: &mut [u32]) -> Moved
    requires { RowsMove rows.now (length source.now) source.now target.now × (term_words * length source.now ≤ length moved.old)
        × (moved.old ≡ replicate (length moved.old) 0) × (length source.now ≤ 4294967295) }
    ensures lower { result.lower ≡ arguments_lower (moved_book rows.now (length source.now) source.now target.now) }
    ensures bytes { result.bytes ≡ length (book_bytes (moved_book rows.now (length source.now) source.now target.now)) }
    ensures moved { moved.new ≡ book_rows (length moved.old) (moved_book rows.now (length source.now) source.now target.now) }
{
    let mut lower = true;
    let mut bytes = leb128::length_of(source.len() as u32);
    for (i, from) in source.iter().enumerate() {
        let term = move_term(rows, *from as usize, target, moved, i);
        lower &= term.lower;
        bytes += term.bytes;
    }
    Moved { lower, bytes }
}
