#![tactic(auto)]

// The session program (docs/SPEC.md, "Sessions"): it reads a session from standard input, and prints a line for the opening and
// for each step. The opening is a function of crate session, a step with the text of its line one of crate printing; here they are joined to
// the input and the output. On standard error it says where the input stops being a session, and what cannot be read or printed.

ghost use Rattle.std.specs.Prelude.{◌≡◌, ◌≤◌, ◌<◌, length, take, drop, codes};
ghost use Rattle.model.specs.Limits.{office, max_session, session_capacity};
ghost use Rattle.model.specs.Area.{area_length};
ghost use Rattle.theory.specs.Lengths.{longest_session_report};
ghost use Rattle.printing.specs.turns.Turns.{buffer_of, size_of};
ghost use Rattle.printing.specs.whole.Loop.{standing, end_from, session_end};
ghost use Rattle.sessions.specs.Counts.{IsPrefixLen, SaysLine};

use arrayvec::ArrayString;
use printing::turns::Shown;
use std::fmt::Write;
use std::io;
use std::io::{Print, Read};

// The bytes of an area of the session's capacity, of the longest report, and of the longest line of text.
const AREA: usize = layout::limits::WORD_BYTES
    * (layout::limits::HEADER_WORDS
        + (layout::limits::TERM_WORDS + 1) * layout::limits::OFFICE_TERMS
        + layout::limits::OFFICE_LINES
        + layout::limits::ENTRY_WORDS * (session::steps::CAPACITY as usize));

const REPORT: usize = 24068;

const LINE: usize = 33 + 6 * REPORT;

// At least the bytes of the text of an error.
const REASON: usize = 320;

// The text of an error without its number.
fn words(reason: &str) -> &str
    ensures front { result.now ≡ take (length result.now) reason.now }
    ensures rest { length result.now < length reason.now → take 11 (drop (length result.now) reason.now) ≡ codes " (os error " }
{
    match reason.rsplit_once(" (os error ") {
        Some((words, _)) => words,
        None => reason,
    }
}

// Where a session prints, and where it says what goes wrong. Where a text cannot be printed, none behind it is.
#[derive(Drop)]
struct Output<'a, O: Print, E: Print> {
    stdout: &'a O,
    stderr: &'a E,
    cut: bool,
}

impl<O: Print, E: Print> Output<'_, O, E> {
    // Says what failed, and the system's text for the error.
    fn fail(&self, what: &str, error: io::Error) {
        let mut reason = ArrayString::<REASON>::new();
        let _ = write!(reason, "{error}");
        let words = words(reason.as_str());
        let _ = println!(self.stderr; "sessions: {what}: {words}");
    }

    // Prints a text where all before it were printed. The first that cannot be is said.
    fn print(&mut self, text: &[u8]) {
        if self.cut {
            return;
        }
        if let Err(error) = self.stdout.write_all(text) {
            self.fail("standard output", error);
            self.cut = true;
        }
    }

    // Says what `say` writes to the front of a line, of which it gives the length.
    fn tell<F: FnOnce(&mut [u8]) -> usize>(&self, say: F)
        requires { SaysLine F.pre F.post say }
    {
        let mut line = [0u8; session::said::MOST];
        let n = say(&mut line);
        let _ = self.stderr.write_all(&line[..n]);
    }
}

// Reads standard input until it ends, the buffer is full or a read fails, and gives the number of bytes. A failed read is said.
fn read_input<O: Print, E: Print>(
    stdin: &mut impl Read,
    output: &Output<'_, O, E>,
    buf: &mut [u8],
) -> usize
    ensures { IsPrefixLen result buf.new }
{
    let mut done: usize = 0;
    // std's `read_exact` does not tell how much was read where the input ends first, and its `read_to_end` wants a `Vec`
    while done < buf.len() {
        match stdin.read(&mut buf[done..]) {
            Ok(0) => return done,
            Ok(more) => done += more,
            Err(error) => {
                output.fail("standard input", error);
                return done;
            }
        }
    }
    done
}

// The buffers of a session: its area, the output of its reports, the text of a report, and the text of a line.
#[derive(Drop)]
struct Buffers {
    area: [u8; AREA],
    out: [u8; REPORT],
    report: [u8; LINE],
    text: [u8; LINE],
}

impl Buffers {
    #[tactic(auto, unfolding(model::specs::Area::area_length))]
    fn new() -> Buffers
        ensures area { area_length office session_capacity ≤ length result.area }
        ensures output { length result.out ≡ longest_session_report }
    {
        Buffers {
            area: [0; AREA],
            out: [0; REPORT],
            report: [0; LINE],
            text: [0; LINE],
        }
    }

    // The text that a turn shows.
    fn shown(&self, shown: Shown) -> &[u8]
        requires { size_of shown ≤ length (buffer_of self.now.report self.now.text shown) }
        ensures { result.now ≡ take (size_of shown) (buffer_of self.now.report self.now.text shown) }
    {
        match shown {
            Shown::Report(size) => &self.report[..size],
            Shown::Line(size) => &self.text[..size],
        }
    }

    // All steps from position `first` on, until the session is over; the answer is the position there.
    fn steps<O: Print, E: Print>(
        &mut self,
        output: &mut Output<'_, O, E>,
        input: &[u8],
        first: usize,
    ) -> usize
        requires { length input.now ≤ max_session }
        ensures { standing result self.new.area self.new.out ≡ end_from input.now (standing first self.old.area self.old.out) }
    {
        let mut at = first;
        let mut kept = None;
        // a `while`: the position is behind the step that was taken
        while at < input.len() {
            let turn = printing::turns::take_turn(
                input,
                at,
                &mut self.area,
                &mut self.out,
                &mut self.report,
                kept,
                &mut self.text,
            );
            output.print(self.shown(turn.shown));
            // where the session stops at the step
            output.tell(|line| session::said::of_command(input, at, line));
            at = turn.next;
            kept = turn.kept;
        }
        at
    }

    // The opening, and the steps where it is accepted; the answer is the position at the end. The area and the output are as long as a
    // session needs, so the texts are those of the session (printing specs/whole/Loop.antt: `TextOfSession`).
    fn run<O: Print, E: Print>(&mut self, output: &mut Output<'_, O, E>, input: &[u8]) -> usize
        requires area { area_length office session_capacity ≤ length self.old.area }
        requires output { length self.old.out ≡ longest_session_report }
        ensures { standing result self.new.area self.new.out ≡ session_end input.now self.old.area self.old.out }
    {
        let begun = session::steps::open(input, &mut self.area);
        let n = printing::lines::opening(begun, &mut self.text);
        output.print(&self.text[..n]);
        // where the opening is refused
        output.tell(|line| session::said::of_opening(input, begun, line));
        match begun {
            Ok(first) => self.steps(output, input, first),
            Err(_) => input.len(),
        }
    }
}

fn main(rt: HostRuntime) {
    let mut output = Output {
        stdout: &rt.stdout(),
        stderr: &rt.stderr(),
        cut: false,
    };
    // one byte more than the longest session shows that a session is too long
    let mut input = [0u8; session::steps::LONGEST + 1];
    let n = read_input(&mut rt.stdin(), &output, &mut input);
    let _ = Buffers::new().run(&mut output, &input[..n]);
}
