// Where a refused opening is refused: the position of the part that is (specs/fault/Fault.antt; docs/SPEC.md, "Sessions").

ghost use Rattle.std.specs.Prelude.{◌≡◌, ◌≤◌, length};
ghost use Rattle.leb128.specs.Answer.{number_before};
ghost use Rattle.session.specs.fault.Fault.{book_fault, opening_fault};

use crate::steps::LONGEST;

// The position of a session's opening that is refused: the first byte too many, the book's length, or a part of the book.
#[tactic(auto, unfolding(crate::specs::fault::Fault::opening_fault, crate::specs::fault::Fault::book_fault))]
pub fn opening_fault(input: &[u8]) -> usize
    ensures { result ≡ opening_fault input.now }
{
    if LONGEST < input.len() {
        return LONGEST;
    }
    match leb128::read(input, 0) {
        Ok(number) => book_fault(input, number.next, number.value as usize),
        Err(_) => 0,
    }
}

// Where the book of `size` bytes at position `at` is refused: at the front of the session where it runs past the end.
#[tactic(auto, unfolding(crate::specs::fault::Fault::book_fault))]
fn book_fault(input: &[u8], at: usize, size: usize) -> usize
    requires { at ≤ length input.now }
    ensures { result ≡ book_fault input.now (number_before size at) }
{
    if input.len() - at < size {
        return 0;
    }
    let end = at + size;
    at + office::opening::read_to(&input[at..end])
}
