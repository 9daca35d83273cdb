// A number, and the parts of a term in document 01's order: symbol (4), count (4), arguments (5). Each is read at a position of a book's
// bytes, and gives the position behind it, or a refusal (specs/parse/Parts.antt). The parts are the work of the reader of
// module reader. Positions are numbers beside the bytes, since the clauses and the place of a refusal (module unread) speak of them.

ghost use Rattle.std.specs.Prelude.{◌≡◌, ◌+◌, ◌*◌, ◌≤◌, length, drop, MatchResult};
ghost use Rattle.model.specs.Limits.{max_arity};
ghost use Rattle.model.specs.Area.{term_words};
ghost use Rattle.model.specs.BookBytes.{unparsed, and_then, parse_arguments};
ghost use Rattle.refusal.specs.Numbers.{number_of};
ghost use Rattle.book.specs.parse.Below.{part_at};
ghost use Rattle.book.specs.parse.Parts.{head_read, parse_head, parse_node_of, AdvanceOf, HeadRead, ArgumentsIn, RowIn};

use leb128::Number;
use refusal::Refusal;

// A count of arguments, and a term's first number (0, or its symbol plus 1), are below these.
const COUNTS: u32 = layout::limits::MAX_ARITY as u32 + 1;

const FIRST_NUMBERS: u32 = layout::limits::MAX_SYMBOL as u32 + 2;

// A position in a term: where the next number stands, and what was read before it, the term's first number and its count.
#[derive(Clone, Copy)]
pub struct Position {
    pub next: usize,
    pub first: u32,
    pub count: u32,
}

// The number at position `at`: it is below `limit`, else the refusal `refusal`.
pub fn read_below(bytes: &[u8], at: usize, limit: u32, refusal: Refusal) -> Result<Number, Refusal>
    ensures { result ≡ part_at bytes.now at limit (number_of refusal) }
{
    let number = leb128::read(bytes, at)?;
    if number.value < limit {
        Ok(number)
    } else {
        Err(refusal)
    }
}

// The head of a term that begins at `at`: its first number, and its count. A variable, whose first number is 0, has no count.
pub fn head_at(bytes: &[u8], at: usize) -> Result<Position, Refusal>
    ensures { MatchResult result (HeadRead bytes.now at) (λ e. parse_head (drop at bytes.now) ≡ unparsed (number_of e)) }
{
    let first = read_below(bytes, at, FIRST_NUMBERS, Refusal::OutOfRange)?;
    if first.value == 0 {
        return Ok(Position {
            next: first.next,
            first: 0,
            count: 0,
        });
    }
    let count = read_below(bytes, first.next, COUNTS, Refusal::OutOfRange)?;
    Ok(Position {
        next: count.next,
        first: first.value,
        count: count.value,
    })
}

// The arguments of term `t`, as many as its count, into its row.
fn read_arguments(bytes: &[u8], at: Position, t: u32, rows: &mut [u32]) -> Result<usize, Refusal>
    requires { (at.next ≤ length bytes.now) × (at.count ≤ max_arity) × (term_words * t + term_words ≤ length rows.old) }
    ensures { AdvanceOf bytes.now (parse_arguments t at.count (drop at.next bytes.now)) (ArgumentsIn t at.count rows.old rows.new) result }
{
    let mut next = at.next;
    let place = layout::limits::TERM_WORDS * (t as usize) + 2;
    for i in 0..at.count {
        let argument = read_below(bytes, next, t, Refusal::NotLower)?;
        rows[place + (i as usize)] = argument.value;
        next = argument.next;
    }
    Ok(next)
}

// The arguments of term `t`, whose head was read, and its row, which stays as it is where the term is a variable.
pub fn arguments_at(bytes: &[u8], at: Position, t: u32, rows: &mut [u32]) -> Result<usize, Refusal>
    requires { (at.next ≤ length bytes.now) × (at.count ≤ max_arity) × (term_words * t + term_words ≤ length rows.old) }
    ensures { AdvanceOf bytes.now (and_then (head_read bytes.now at) (parse_node_of t)) (RowIn t at rows.old rows.new) result }
{
    if at.first == 0 {
        return Ok(at.next);
    }
    let place = layout::limits::TERM_WORDS * (t as usize);
    rows[place] = at.first;
    rows[place + 1] = at.count;
    read_arguments(bytes, at, t, rows)
}
