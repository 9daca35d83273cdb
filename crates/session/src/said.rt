// What a session says on standard error where its input stops being one (specs/said/Said.antt; docs/SPEC.md, "Sessions"), as a line at the
// front of a buffer.

ghost use Rattle.std.specs.Prelude.{◌≡◌, ◌++◌, ◌≤◌, length, drop};
ghost use Rattle.model.specs.Limits.{max_session};
ghost use Rattle.session.specs.command.Commands.{command_at};
ghost use Rattle.session.specs.said.Said.{words, said_line, said_most, opening_said_by, command_said};

use crate::text::Writer;
use refusal::Numbered;

// The most bytes of a line.
pub const MOST: usize = 144;

// A refusal in words, by its number: any number can be asked for.
#[tactic(auto, using(crate::proofs::said::Saying::no_words), unfolding(crate::specs::said::Said::words, crate::specs::said::Said::ascii))]
fn words(refusal: u32) -> &'static [u8]
    ensures { result.now ≡ words refusal }
{
    match refusal {
        1 => b"the bytes end too early: within a number, before one, or before the end of the book",
        2 => b"a number not in shortest form, of more than three bytes, or above 65,535",
        3 => b"bytes after the last term of the book",
        4 =>
            b"a number of terms, a symbol or a count out of range, or a session of more than 65,536 bytes",
        5 => b"an argument that is not lower than its term",
        8 => b"an unknown step",
        _ => b"",
    }
}

// Writes the line of a position and a refusal to the front of `line`, and gives its length.
fn put_said<E: Numbered>(line: &mut [u8], position: u32, refusal: E) -> usize
    requires { said_most ≤ length line.old }
    ensures count { result ≡ length (said_line position (E.its_number refusal)) }
    ensures bytes { line.new ≡ said_line position (E.its_number refusal) ++ drop result line.old }
{
    let number = refusal.number();
    let mut said = Writer { text: line, at: 0 };
    said.put_bytes(b"sessions: byte ");
    said.put_decimal(position);
    said.put_bytes(b": refused with ");
    said.put_decimal(number);
    said.put_bytes(b": ");
    said.put_bytes(words(number));
    said.end_line();
    said.at
}

// Writes what is said of an opening to the front of `line`, and gives its length: 0, a length as any other, where it is accepted.
#[tactic(auto, unfolding(crate::specs::said::Said::opening_said_by))]
pub fn of_opening<E: Numbered>(input: &[u8], begun: Result<usize, E>, line: &mut [u8]) -> usize
    requires { said_most ≤ length line.old }
    ensures count { result ≡ length (opening_said_by E.its_number input.now begun) }
    ensures bytes { line.new ≡ opening_said_by E.its_number input.now begun ++ drop result line.old }
{
    match begun {
        Err(refusal) => put_said(line, crate::fault::opening_fault(input) as u32, refusal),
        Ok(_) => 0,
    }
}

// Writes what is said of the command at position `at` to the front of `line`, and gives its length: 0 where the session does not stop at it.
#[tactic(auto, unfolding(crate::specs::said::Said::command_said))]
pub fn of_command(input: &[u8], at: usize, line: &mut [u8]) -> usize
    requires { (at ≤ max_session) × (said_most ≤ length line.old) }
    ensures count { result ≡ length (command_said at (command_at input.now at)) }
    ensures bytes { line.new ≡ command_said at (command_at input.now at) ++ drop result line.old }
{
    match crate::command::command_at(input, at) {
        Err(refusal) => put_said(line, at as u32, refusal),
        Ok(_) => 0,
    }
}
