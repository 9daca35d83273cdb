// A turn of a session: one step, and the text of its line, with a report's text kept for the next report (specs/turns/Turns.antt). A session
// may ask for as many reports as it has bytes, and few steps between them change what is reported.

ghost use Rattle.std.specs.Prelude.{◌≡◌, ◌≤◌, length};
ghost use Rattle.session.specs.text.Text.{line_most};
ghost use Rattle.session.specs.steps.Effects.{next_or, step_at};
ghost use Rattle.printing.specs.turns.Turns.{printed, Front, buffer_of, size_of, KeptReport};

use session::command::Command;
use session::steps::Reply;

// Where the text of a turn stands, and its size: a step's line in one buffer, a report in another.
#[derive(Clone, Copy)]
pub enum Shown {
    Line(usize),
    Report(usize),
}

// What a turn gives: the position at which the session goes on, the text to print, and how much of the buffer of reports is kept,
// if a report is.
#[derive(Clone, Copy)]
pub struct Printout {
    pub next: usize,
    pub shown: Shown,
    pub kept: Option<usize>,
}

// The position at which the session goes on after an answer, and `over` where it is over.
#[tactic(auto, unfolding(session::specs::steps::Effects::next_or))]
fn goes_on(reply: Reply, over: usize) -> usize
    ensures { result ≡ next_or over reply }
{
    match reply {
        Reply::Ended | Reply::Stopped(_) => over,
        Reply::Answered { next, .. }
        | Reply::NotReported { next, .. }
        | Reply::Reported { next, .. } => next,
    }
}

// Takes the step at position `at`. The text of its line goes into `text`, but that of a report into `report`, of which `kept` says how
// much is there from an earlier turn: while a report is kept, none is made again. A refused step keeps it.
pub fn take_turn(
    input: &[u8],
    at: usize,
    area: &mut [u8],
    out: &mut [u8],
    report: &mut [u8],
    kept: Option<usize>,
    text: &mut [u8],
) -> Printout
    requires room { (line_most 2 (length out.old) ≤ length report.old) × (line_most 2 (length out.old) ≤ length text.old) }
    requires kept { KeptReport area.old out.old report.old kept }
    ensures area { area.new ≡ (step_at input.now area.old out.old at).area }
    ensures output { out.new ≡ (step_at input.now area.old out.old at).output }
    ensures next { result.next ≡ next_or (length input.now) (step_at input.now area.old out.old at).answer }
    ensures printed { Front (buffer_of report.new text.new result.shown) (size_of result.shown) (printed (step_at input.now area.old out.old at)) }
    ensures kept { KeptReport area.new out.new report.new result.kept }
{
    if let Ok(Command::Report(next)) = session::command::command_at(input, at) {
        let size = match kept {
            Some(size) => size,
            None => {
                let reply = session::steps::step_at(input, at, area, out);
                crate::lines::line(reply, out, report)
            }
        };
        return Printout {
            next,
            shown: Shown::Report(size),
            kept: Some(size),
        };
    }
    let reply = session::steps::step_at(input, at, area, out);
    let size = crate::lines::line(reply, out, text);
    Printout {
        next: goes_on(reply, input.len()),
        shown: Shown::Line(size),
        kept: match reply {
            Reply::Answered { answer: Err(_), .. } => kept,
            _ => None,
        },
    }
}
