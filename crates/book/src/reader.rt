// A reader of a term (document 01, "The shape of each place"): it is made where the term begins and moves on behind its head, in
// document 01's order. Its steps take it apart and call module parse on the slice and the position.
// `read_term`, above them, has plain parameters.

ghost use Rattle.std.specs.Prelude.{◌≡◌, ◌+◌, ◌*◌, ◌≤◌, length, drop, MatchResult};
ghost use Rattle.model.specs.Limits.{max_arity};
ghost use Rattle.model.specs.Area.{term_words};
ghost use Rattle.model.specs.BookBytes.{unparsed, and_then, parse_number, parse_node};
ghost use Rattle.refusal.specs.Numbers.{number_of};
ghost use Rattle.book.specs.parse.Parts.{start_at, head_read, parse_head, parse_node_of, AdvanceOf, HeadRead, RowIn, TermIn};

use crate::parse::Position;
use refusal::Refusal;

// A book's bytes, and the position in the term that is read.
#[derive(Clone, Copy)]
struct Reader<'a> {
    src: &'a [u8],
    at: Position,
}

impl<'a> Reader<'a> {
    // A reader of the term that begins at position `next`.
    fn new(src: &'a [u8], next: usize) -> Reader<'a>
        ensures { (result.src ≡ src.entry) × (result.at ≡ start_at next) }
    {
        Reader {
            src,
            at: Position {
                next,
                first: 0,
                count: 0,
            },
        }
    }

    // The reader behind the term's head: symbol (4), count (4).
    fn head(self) -> Result<Reader<'a>, Refusal>
        ensures { MatchResult result (λ r. (r.src ≡ self.entry.src) × HeadRead self.entry.src.now self.entry.at.next r.at)
            (λ e. parse_head (drop self.entry.at.next self.entry.src.now) ≡ unparsed (number_of e)) }
    {
        let at = crate::parse::head_at(self.src, self.at.next)?;
        Ok(Reader { src: self.src, at })
    }

    // The position behind the arguments of term `t`, which go into its row: arguments (5).
    fn arguments(self, t: u32, rows: &mut [u32]) -> Result<usize, Refusal>
        requires { (self.at.next ≤ length self.src.now) × (self.at.count ≤ max_arity) × (term_words * t + term_words ≤ length rows.old) }
        ensures { AdvanceOf self.entry.src.now (and_then (head_read self.entry.src.now self.entry.at) (parse_node_of t)) (RowIn t self.entry.at rows.old rows.new) result }
    {
        crate::parse::arguments_at(self.src, self.at, t, rows)
    }
}

// Term `t`, which begins at position `at`, into its row, which stays as it is where the term is a variable.
pub fn read_term(bytes: &[u8], at: usize, t: u32, rows: &mut [u32]) -> Result<usize, Refusal>
    requires { term_words * t + term_words ≤ length rows.old }
    ensures { AdvanceOf bytes.now (and_then (parse_number (drop at bytes.now)) (parse_node t)) (TermIn t rows.old rows.new) result }
{
    Reader::new(bytes, at).head()?.arguments(t, rows)
}
