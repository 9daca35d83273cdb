// An entry's row as a struct (docs/LAYOUT.md).

ghost use Rattle.std.specs.Prelude.{◌≡◌, ◌+◌, ◌*◌, ◌≤◌, length, take, drop};
ghost use Rattle.std.proofs.Math.Seq.{paste};
ghost use Rattle.model.specs.Area.{entry_row_words};
ghost use Rattle.layout.specs.entry.Row.{row_of};

// An entry: its pair of terms, kind (0 hole, 1 common), symbol, argument count, argument entries, and same-as.
// The kind is a number: `entry_at` reads a row of any words, and `row_of` gives back the same (clauses of both).
#[derive(Clone, Copy)]
pub struct Entry {
    pub left: u32,
    pub right: u32,
    pub kind: u32,
    pub symbol: u32,
    pub count: u32,
    pub arguments: [u32; crate::limits::MAX_ARITY],
    pub same_as: u32,
}

// The entry whose words these are. Not a `From`: it asks for a row's length, which `entry_at` has, and refuses nothing.
fn entry_of(row: &[u32]) -> Entry
    requires { length row.now ≡ entry_row_words }
    ensures { row_of result ≡ row.now }
{
    Entry {
        left: row[0],
        right: row[1],
        kind: row[2],
        symbol: row[3],
        count: row[4],
        arguments: [
            row[5], row[6], row[7], row[8], row[9], row[10], row[11], row[12],
        ],
        same_as: row[13],
    }
}

// The entry in row `i`.
pub fn entry_at(entries: &[u32], i: usize) -> Entry
    requires { entry_row_words * i + entry_row_words ≤ length entries.now }
    ensures { row_of result ≡ take entry_row_words (drop (entry_row_words * i) entries.now) }
{
    let at = crate::limits::ENTRY_WORDS * i;
    entry_of(&entries[at..at + crate::limits::ENTRY_WORDS])
}

// The words of an entry.
pub fn row_of(e: Entry) -> [u32; crate::limits::ENTRY_WORDS]
    ensures { result ≡ row_of e }
{
    let a = e.arguments;
    [
        e.left, e.right, e.kind, e.symbol, e.count, a[0], a[1], a[2], a[3], a[4], a[5], a[6], a[7],
        e.same_as,
    ]
}

// Puts the entry into row `i`.
pub fn put_entry(entries: &mut [u32], i: usize, e: Entry)
    requires { entry_row_words * i + entry_row_words ≤ length entries.old }
    ensures { entries.new ≡ paste entries.old (entry_row_words * i) (row_of e) entry_row_words }
{
    let start = crate::limits::ENTRY_WORDS * i;
    entries[start..start + crate::limits::ENTRY_WORDS].copy_from_slice(&row_of(e));
}
