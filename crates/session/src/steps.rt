// A session over lent bytes: opening it, and one step of it (specs/steps/; docs/SPEC.md, "Sessions").

ghost use Rattle.std.specs.Prelude.{◌≡◌, [], ◌∷◌};
ghost use Rattle.model.specs.Limits.{office};
ghost use Rattle.model.specs.Call.{call_report};
ghost use Rattle.session.specs.command.Commands.{command_at};
ghost use Rattle.session.specs.steps.Effects.{start, reported_by, step_at};
ghost use Rattle.session.specs.steps.Lines.{opening_line, lines, start_refusal, command_lines};

use crate::command::Command;
use refusal::Refusal;
use step::answer::Accepted;

// The longest session in bytes, and the capacity of its area.
pub const LONGEST: usize = 65536;

pub const CAPACITY: u32 = 1024;

// What a step answers. The session goes on at `next`; it is over where there is none. A step refuses with a `Refusal`; any other number is
// printed as well (printing::lines).
#[derive(Clone, Copy)]
pub enum Reply<E = Refusal> {
    // the input has ended
    Ended,
    // a bad or cut number, or an unknown step
    Stopped(E),
    // a step that was taken or refused
    Answered {
        answer: Result<Accepted, E>,
        next: usize,
    },
    // a refused report
    NotReported {
        refusal: E,
        next: usize,
    },
    // a report, in the first bytes of the output
    Reported {
        length: u32,
        next: usize,
    },
}

// Opens a session, and gives the position of the first step: 4 for one that is too long; the refusal of the book's length, 1 where it
// runs past the end; and then the book's.
pub fn open(input: &[u8], area: &mut [u8]) -> Result<usize, Refusal>
    ensures answer { result ≡ (start input.now area.old).answer }
    ensures area { area.new ≡ (start input.now area.old).area }
    ensures numbers { opening_line result ≡ start_refusal input.now area.old ∷ [] }
{
    if LONGEST < input.len() {
        return Err(Refusal::OutOfRange);
    }
    let number = leb128::read(input, 0)?;
    let size = number.value as usize;
    if input.len() - number.next < size {
        return Err(Refusal::Cut);
    }
    let end = number.next + size;
    office::opening::open(CAPACITY, &input[number.next..end], area)?;
    Ok(end)
}

// Reports into the output.
fn report(area: &[u8], out: &mut [u8], next: usize) -> Reply
    ensures answer { result ≡ reported_by (call_report office area.now out.old) next }
    ensures output { out.new ≡ (call_report office area.now out.old).output }
{
    match office::reports::report(area, out) {
        Ok(length) => Reply::Reported { length, next },
        Err(refusal) => Reply::NotReported { refusal, next },
    }
}

// One step of a session, at position `at` of the input: its answer, and what it leaves in the area and in the output.
#[tactic(auto, using(crate::proofs::steps::Stepping::lines_told, crate::proofs::steps::Stepping::report_area), unfolding(crate::specs::steps::Effects::step_at, crate::specs::steps::Effects::perform, crate::specs::steps::Effects::still))]
pub fn step_at(input: &[u8], at: usize, area: &mut [u8], out: &mut [u8]) -> Reply
    ensures answer { result ≡ (step_at input.now area.old out.old at).answer }
    ensures area { area.new ≡ (step_at input.now area.old out.old at).area }
    ensures output { out.new ≡ (step_at input.now area.old out.old at).output }
    ensures numbers { lines result out.new ≡ command_lines area.old out.old (command_at input.now at) }
{
    match crate::command::command_at(input, at) {
        Ok(Command::Ended) => Reply::Ended,
        Ok(Command::Take(step, next)) => {
            let answer = office::steps::step(area, step);
            Reply::Answered { answer, next }
        }
        Ok(Command::Report(next)) => report(area, out, next),
        Err(refusal) => Reply::Stopped(refusal),
    }
}
