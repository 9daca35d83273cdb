// The command at a position of a session's input (specs/command/Commands.antt; docs/SPEC.md, "Sessions").

ghost use Rattle.std.specs.Prelude.{◌≡◌, drop};
ghost use Rattle.session.specs.command.Commands.{command_numbers, asked_numbers, by_number, command_at};

use refusal::Refusal;
use step::answer::Step;

// A command, with the position after it: a number, since what is said of a stop tells it.
#[derive(Clone, Copy)]
pub enum Command {
    // the input has ended
    Ended,
    // a step is to be taken
    Take(Step, usize),
    // a report is to be written
    Report(usize),
}

// The command numbered `n`, whose other numbers begin at position `at`; or the refusal of a number that is bad or cut, and 8 for an
// unknown step.
fn by_number(input: &[u8], n: u32, at: usize) -> Result<Command, Refusal>
    ensures { result ≡ by_number input.now n at }
{
    if n == 3 {
        return Ok(Command::Report(at));
    }
    if n == 0 {
        return Err(Refusal::NamesNothing);
    }
    if 3 < n {
        return Err(Refusal::NamesNothing);
    }
    let first = leb128::read(input, at)?;
    let second = leb128::read(input, first.next)?;
    let step = if n == 1 {
        Step::Add(first.value, second.value)
    } else {
        Step::Bind(first.value, second.value)
    };
    Ok(Command::Take(step, second.next))
}

// The command at position `at` of the input, or the refusal that stops the session there.
pub fn command_at(input: &[u8], at: usize) -> Result<Command, Refusal>
    ensures command { result ≡ command_at input.now at }
    ensures numbers { command_numbers result ≡ asked_numbers (drop at input.now) }
{
    if input.len() <= at {
        return Ok(Command::Ended);
    }
    let number = leb128::read(input, at)?;
    by_number(input, number.value, number.next)
}
