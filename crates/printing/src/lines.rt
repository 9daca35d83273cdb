// The line that an opening or a step prints (crate session, specs/steps/Lines.antt), as text at the front of a buffer, whatever number its
// refusal has.

ghost use Rattle.std.specs.Prelude.{◌≡◌, ◌++◌, ◌≤◌, length, drop};
ghost use Rattle.session.specs.text.Text.{line_text, lines_text, line_most};
ghost use Rattle.session.specs.steps.Lines.{opening_line_by, answer_line_by, lines_by};

use refusal::Numbered;
use session::steps::Reply;
use step::answer::Accepted;

// Writes the line of an opening to the front of `text`, and gives its length.
#[tactic(auto, unfolding(session::specs::steps::Lines::opening_line_by))]
pub fn opening<E: Numbered>(begun: Result<usize, E>, text: &mut [u8]) -> usize
    requires { line_most 0 0 ≤ length text.old }
    ensures count { result ≡ length (line_text (opening_line_by E.its_number begun)) }
    ensures bytes { text.new ≡ line_text (opening_line_by E.its_number begun) ++ drop result text.old }
{
    session::text::put_line(refusal::number(begun), &[], text)
}

// Writes the line of a step's answer to the front of `text`, and gives its length.
#[tactic(auto, unfolding(session::specs::steps::Lines::answer_line_by))]
fn answer_line<E: Numbered>(answer: Result<Accepted, E>, text: &mut [u8]) -> usize
    requires { line_most 2 0 ≤ length text.old }
    ensures count { result ≡ length (line_text (answer_line_by E.its_number answer)) }
    ensures bytes { text.new ≡ line_text (answer_line_by E.its_number answer) ++ drop result text.old }
{
    match answer {
        Ok(Accepted::Added { entry }) => session::text::put_line(0, &[entry], text),
        Ok(Accepted::Bound { turned, appended }) => session::text::put_line(
            0,
            &[turned, appended],
            text,
        ),
        Err(refusal) => session::text::put_line(refusal.number(), &[], text),
    }
}

// Writes the line that a step prints, if any, to the front of `text`, and gives its length. `out` is the output that the step left.
#[tactic(auto, using(crate::proofs::lines::Printing::no_line, crate::proofs::lines::Printing::one_line, std::proofs::lemmas::List::take_min), unfolding(session::specs::steps::Lines::lines_by))]
pub fn line<E: Numbered>(reply: Reply<E>, out: &[u8], text: &mut [u8]) -> usize
    requires { line_most 2 (length out.now) ≤ length text.old }
    ensures count { result ≡ length (lines_text (lines_by E.its_number reply out.now)) }
    ensures bytes { text.new ≡ lines_text (lines_by E.its_number reply out.now) ++ drop result text.old }
{
    match reply {
        Reply::Ended => 0,
        Reply::Stopped(refusal) => session::text::put_line(refusal.number(), &[], text),
        Reply::Answered { answer, .. } => answer_line(answer, text),
        Reply::NotReported { refusal, .. } => session::text::put_line(refusal.number(), &[], text),
        Reply::Reported { length, .. } => {
            let size = (length as usize).min(out.len());
            session::text::put_report(&out[..size], text)
        }
    }
}
