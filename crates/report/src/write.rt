// The report of a sound state as bytes (docs/SPEC.md, "Bytes"): its length, writing it, and `report`, which numbers the classes
// (module `numbering`) and does both. `head` has the numbers before the entries (specs/write/Shown.antt).

ghost use Rattle.std.specs.Prelude.{◌≡◌, [], ◌++◌, ◌+◌, ◌≤◌, ◌<◌, length, take, drop};
ghost use Rattle.model.specs.Step.{State};
ghost use Rattle.model.specs.Report.{number_bytes, report_bytes};
ghost use Rattle.model.specs.Call.{emit};
ghost use Rattle.refusal.specs.Numbers.{number, counted};
ghost use Rattle.runs.specs.Emits.{Writes};
ghost use Rattle.report.specs.numbering.Numbering.{NumberRoom};
ghost use Rattle.report.specs.write.Shown.{classes, Tabled, head_numbers, row_numbers, Told, Shown, GivenState};

use refusal::Refusal;

// The most numbers of an entry: two names, the symbol, the count and the arguments.
const MOST: usize = 4 + layout::limits::MAX_ARITY;

// Puts the numbers before the entries at the front of `head`: how many lines, each line's entry, how many entries.
fn number_lines(lines: &[u32], entries: &[u32], numbers: &[u32], count: usize, head: &mut [u32])
    requires given_state { GivenState (λ s. Tabled s entries.now numbers.now × (lines.now ≡ s.lines) × (count ≡ length (classes s))) }
    requires lines_in_bounds { length lines.now + 2 ≤ length head.old }
    ensures { (s : State) → Tabled s entries.now numbers.now → lines.now ≡ s.lines → count ≡ length (classes s)
        → head.new ≡ head_numbers s ++ drop (length (head_numbers s)) head.old }
{
    let k = lines.len();
    head[0] = k as u32;
    crate::numbering::renumber(lines, entries, numbers, &mut head[1..]);
    head[k + 1] = count as u32;
}

// The numbers of an entry, in fixed memory: at the front of an array.
#[derive(Clone, Copy)]
struct Numbers {
    array: [u32; MOST],
    count: usize,
    ghost few: { count ≤ length array },
}

impl Numbers {
    fn words(&self) -> &[u32]
        ensures { result.now ≡ take self.now.count self.now.array }
    {
        &self.array[..self.count]
    }
}

// All that a report is written from: the names of the terms, the entries, the classes in order, their marks, and the numbers before
// the entries.
#[derive(Clone, Copy)]
struct Source<'a> {
    names: &'a [u32],
    entries: &'a [u32],
    met: &'a [u32],
    numbers: &'a [u32],
    head: &'a [u32],
    ghost given: { ∥ GivenState (λ s. Shown s names.now entries.now met.now numbers.now × (head.now ≡ head_numbers s)) ∥₁ },
}

impl<'a> Source<'a> {
    ghost use Rattle.report.specs.write.Source.{Shows};

    // The numbers of the entry with number `n`. Nothing is stored between reading the entry and the test of its kind: so the words
    // behind a hole's kind are not read.
    fn entry_numbers(self, n: usize) -> Numbers
        requires { n < length self.met.now }
        ensures { (s : State) → Shows s self.entry → take result.count result.array ≡ row_numbers s n }
    {
        let i = self.met[n] as usize;
        let mut array = [0; MOST];
        let e = layout::entry::entry_at(self.entries, i);
        let left = self.names[e.left as usize];
        let right = self.names[e.right as usize];
        if e.kind == 0 {
            array[0] = left;
            array[1] = right;
            return Numbers { array, count: 3 };
        }
        let count = e.count as usize;
        let arguments = e.arguments;
        array[0] = left;
        array[1] = right;
        array[2] = e.symbol + 1;
        array[3] = e.count;
        crate::numbering::renumber(
            &arguments[..count],
            self.entries,
            self.numbers,
            &mut array[4..],
        );
        Numbers {
            array,
            count: 4 + count,
        }
    }

    // How many bytes the entry with number `n` takes.
    fn entry_length(self, n: usize) -> usize
        requires { n < length self.met.now }
        ensures { (s : State) → Shows s self.entry → result ≡ length (number_bytes (row_numbers s n)) }
    {
        let numbers = self.entry_numbers(n);
        runs::run_length(numbers.words())
    }

    // Writes the entry with number `n` to the front of `out`, which is long enough, and gives the number of bytes.
    fn write_entry(self, n: usize, out: &mut [u8]) -> usize
        requires n_in_bounds { n < length self.met.now }
        requires room { (s : State) → Shows s self → length (number_bytes (row_numbers s n)) ≤ length out.old }
        ensures { (s : State) → Shows s self.entry
            → (result ≡ length (number_bytes (row_numbers s n))) × (out.new ≡ number_bytes (row_numbers s n) ++ drop result out.old) }
    {
        let numbers = self.entry_numbers(n);
        runs::put_run(numbers.words(), out, 0)
    }

    // How many bytes the report takes.
    fn length(self) -> usize
        ensures { (s : State) → Shows s self.entry → result ≡ length (report_bytes s) }
    {
        let mut sum = runs::run_length(self.head);
        for n in 0..self.met.len() {
            sum += self.entry_length(n);
        }
        sum
    }

    // Writes the report to the front of `out`, which is long enough, and gives the number of bytes. Each entry is written to the
    // part of `out` that is not written yet.
    fn write(self, out: &mut [u8]) -> usize
        requires { (s : State) → Shows s self → length (report_bytes s) ≤ length out.old }
        ensures { (s : State) → Shows s self.entry
            → (result ≡ length (report_bytes s)) × (out.new ≡ report_bytes s ++ drop result out.old) }
    {
        let mut at = runs::put_run(self.head, out, 0);
        for n in 0..self.met.len() {
            at += self.write_entry(n, &mut out[at..]);
        }
        at
    }

    // Writes the report and gives the number of bytes, or a refusal where `out` is too short.
    fn emit(self, out: &mut [u8]) -> Result<u32, Refusal>
        ensures { (s : State) → Shows s self.entry → Writes (emit (report_bytes s) [] out.old) (number result) (counted result) out.new }
    {
        if out.len() < self.length() {
            return Err(Refusal::TooShort);
        }
        let count = self.write(out);
        Ok(count as u32)
    }
}

// Writes the report of a state with `m` entries and gives the number of bytes, or a refusal where `out` is too short. `met`, `numbers`
// and `head` are scratch.
pub fn report(
    names: &[u32],
    lines: &[u32],
    entries: &[u32],
    m: usize,
    met: &mut [u32],
    numbers: &mut [u32],
    head: &mut [u32],
    out: &mut [u8],
) -> Result<u32, Refusal>
    requires state { GivenState (λ s. Told s names.now lines.now entries.now × (m ≡ length s.entries)) }
    requires room { NumberRoom m met.old numbers.old × (length lines.now + 2 ≤ length head.old) }
    ensures { (s : State) → Told s names.now lines.now entries.now → m ≡ length s.entries
        → Writes (emit (report_bytes s) [] out.old) (number result) (counted result) out.new }
{
    let count = crate::numbering::number_classes(lines, entries, m, met, numbers);
    number_lines(lines, entries, numbers, count, head);
    let source = Source {
        names,
        entries,
        met: &met[..count],
        numbers,
        head: &head[..lines.len() + 2],
    };
    source.emit(out)
}
