// The classes of a table numbered afresh, in the order in which the lines and the arguments lead to them
// (specs/numbering/Numbering.antt).

ghost use Rattle.std.specs.Prelude.{◌≡◌, [], ◌∷◌, ◌++◌, map, ℕ, ◌+◌, ◌*◌, ◌≤◌, ◌<◌, length, get_or, drop};
ghost use Rattle.std.proofs.Props.{props};
ghost use Rattle.model.specs.Area.{entry_row_words};
ghost use Rattle.model.specs.Report.{class, argument_classes};
ghost use Rattle.layout.specs.limits.Rows.{loaded_entry, table_of};
ghost use Rattle.report.specs.numbering.Numbering.{Entries, Closed, Marked, new_number, NumberRoom, MetSoFar, Numbered};

// The class of the entry in row `i`.
fn class_at(entries: &[u32], i: usize) -> u32
    requires { entry_row_words * i + entry_row_words ≤ length entries.now }
    ensures { result ≡ (loaded_entry entries.now i).same_as }
{
    layout::entry::entry_at(entries, i).same_as
}

// The classes that are met of the table in the first `m` rows: the first `count` words of `met` are those so far, and `numbers` has for
// each class its number plus 1, or 0: words of a lent slice, which an Option does not fit.
#[derive(Drop)]
struct Classes<'a> {
    entries: &'a [u32],
    m: usize,
    met: &'a mut [u32],
    numbers: &'a mut [u32],
    count: usize,
    ghost closed: { Closed entries.now m } by { Prim.hlevel props },
    ghost sound: { MetSoFar m met.now numbers.now count } by { Prim.hlevel props },
}

impl<'a> Classes<'a> {
    ghost use Rattle.report.specs.numbering.Classes.{Meets};

    // Meets class `x`: it gets the next number unless it has one.
    fn meet(&mut self, x: u32)
        requires { x < self.old.m }
        ensures { Meets self.old (x ∷ []) self.new }
    {
        let place = x as usize;
        if self.numbers[place] != 0 {
            return;
        }
        let next = self.count + 1;
        self.met[self.count] = x;
        self.numbers[place] = next as u32;
        self.count = next;
    }

    // Meets the classes of the entries `items`, one after the other.
    fn meet_all(&mut self, items: &[u32])
        requires { Entries self.old.m items.now }
        ensures { Meets self.old (map (class (table_of self.old.entries.now self.old.m)) items.now) self.new }
    {
        for i in items {
            let x = class_at(self.entries, *i as usize);
            self.meet(x);
        }
    }

    // Meets the classes of the arguments of entry `i`.
    fn meet_arguments(&mut self, i: usize)
        requires { i < self.old.m }
        ensures { Meets self.old (argument_classes (table_of self.old.entries.now self.old.m) i) self.new }
    {
        let e = layout::entry::entry_at(self.entries, i);
        if e.kind != 0 {
            let arguments = e.arguments;
            self.meet_all(&arguments[..e.count as usize]);
        }
    }
}

// The new numbers of the entries `items`, by the marks, to the front of `out`.
pub fn renumber(items: &[u32], entries: &[u32], numbers: &[u32], out: &mut [u32])
    requires by_index { (j : ℕ) → j < length items.now → Marked entries.now numbers.now (get_or items.now j 0) }
    requires in_bounds { length items.now ≤ length out.old }
    ensures { out.new ≡ map (new_number entries.now numbers.now) items.now ++ drop (length items.now) out.old }
{
    for (j, i) in items.iter().enumerate() {
        let x = class_at(entries, *i as usize) as usize;
        out[j] = numbers[x] - 1;
    }
}

// Numbers the classes of the `m` entries that the lines lead to: the lines' own first, then those of the arguments of what is
// numbered, in rising number. The answer is how many there are; `met` has them in order, and `numbers` has for each class its
// number plus 1, or 0.
pub fn number_classes(
    lines: &[u32],
    entries: &[u32],
    m: usize,
    met: &mut [u32],
    numbers: &mut [u32],
) -> usize
    requires closed { Closed entries.now m × Entries m lines.now }
    requires number_room { NumberRoom m met.old numbers.old }
    ensures { Numbered (table_of entries.now m) lines.now met.new numbers.new result }
{
    layout::clearing::clear(numbers, m);
    let mut classes = Classes {
        entries,
        m,
        met,
        numbers,
        count: 0,
    };
    classes.meet_all(lines);
    let mut i = 0;
    // The bound grows in the loop.
    while i < classes.count {
        let x = classes.met[i] as usize;
        classes.meet_arguments(x);
        i += 1;
    }
    classes.count
}
