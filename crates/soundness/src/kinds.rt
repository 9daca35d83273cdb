// The test of the kinds of a loaded table's entries, on names and roots that are computed already (specs/kinds/Known.antt,
// specs/kinds/KindTests.antt). It only reads.

ghost use Rattle.std.specs.Prelude.{◌≡◌, ◌+◌, ◌*◌, ◌<◌, ◌≤◌, length, take, drop};
ghost use Rattle.model.specs.Lists.{all};
ghost use Rattle.model.specs.Table.{entry};
ghost use Rattle.model.specs.Area.{term_words, arguments_ok, kind_ok};
ghost use Rattle.layout.specs.limits.Rows.{at, node_of, table_of};
ghost use Rattle.soundness.specs.kinds.Known.{Named, RowsKnown, Known, Terms, GivenBook, TestAnswers};
ghost use Rattle.soundness.specs.kinds.KindTests.{argument_right, kind_right};

use layout::limits::TERM_WORDS;

// Whether there is an entry `i`, of `m`, and its sides have the names of the terms `l` and `r`.
fn argument_ok(names: &[u32], entries: &[u32], m: usize, i: u32, l: u32, r: u32) -> bool
    requires { GivenBook (λ b β. Named b β names.now entries.now m × (l < length b) × (r < length b)) }
    ensures { TestAnswers (λ b β. Named b β names.now entries.now m × (l < length b) × (r < length b))
        (λ b β. argument_right b β (table_of entries.now m) i l r) result }
{
    let i = i as usize;
    if m <= i {
        return false;
    }
    let e = layout::entry::entry_at(entries, i);
    names[e.left as usize] == names[l as usize] && names[e.right as usize] == names[r as usize]
}

// Whether the entries `args` have the values of the pairs of the terms `ls` and `rs`, one for one.
fn arguments_ok(
    names: &[u32],
    entries: &[u32],
    m: usize,
    args: &[u32],
    ls: &[u32],
    rs: &[u32],
) -> bool
    requires { GivenBook (λ b β. Named b β names.now entries.now m × Terms b ls.now × Terms b rs.now) }
    ensures { TestAnswers (λ b β. Named b β names.now entries.now m × Terms b ls.now × Terms b rs.now)
        (λ b β. arguments_ok b β (table_of entries.now m) args.now ls.now rs.now) result }
{
    if args.len() != ls.len() || args.len() != rs.len() {
        return false;
    }
    (0..args.len()).all(|j| argument_ok(names, entries, m, args[j], ls[j], rs[j]))
}

// The arguments of the term in row `l`.
fn arguments_of(rows: &[u32], l: usize) -> &[u32]
    requires { term_words * l + 2 + at rows.now (term_words * l + 1) ≤ length rows.now }
    ensures { result.now ≡ take (at rows.now (term_words * l + 1)) (drop (term_words * l + 2) rows.now) }
{
    let first = TERM_WORDS * l + 2;
    let end = first + rows[first - 1] as usize;
    &rows[first..end]
}

// Whether the kind of entry `i` is right for the terms `l` and `r`.
fn kind_fits(
    rows: &[u32],
    names: &[u32],
    entries: &[u32],
    m: usize,
    i: usize,
    l: usize,
    r: usize,
) -> bool
    requires known { GivenBook (λ b β. RowsKnown b β rows.now names.now entries.now m × (l < length b) × (r < length b)) }
    requires there { i < m }
    ensures { TestAnswers (λ b β. RowsKnown b β rows.now names.now entries.now m × (l < length b) × (r < length b))
        (λ b β. kind_ok b β (table_of entries.now m) (entry (table_of entries.now m) i).kind
        (node_of rows.now l) (node_of rows.now r)) result }
{
    let e = layout::entry::entry_at(entries, i);
    if !layout::limits::alike(rows, l, r) {
        return e.kind == 0;
    }
    if e.kind == 0 || e.symbol != rows[TERM_WORDS * l] - 1 {
        return false;
    }
    arguments_ok(
        names,
        entries,
        m,
        &e.arguments[..e.count as usize],
        arguments_of(rows, l),
        arguments_of(rows, r),
    )
}

// Whether the kind of entry `i` is right for what its sides stand for.
fn kind_ok(rows: &[u32], roots: &[u32], names: &[u32], entries: &[u32], m: usize, i: usize) -> bool
    requires known { GivenBook (λ b β. Known b β rows.now roots.now names.now entries.now m) }
    requires there { i < m }
    ensures { TestAnswers (λ b β. Known b β rows.now roots.now names.now entries.now m)
        (λ b β. kind_right b β (table_of entries.now m) (entry (table_of entries.now m) i)) result }
{
    let e = layout::entry::entry_at(entries, i);
    let left = roots[e.left as usize] as usize;
    let right = roots[e.right as usize] as usize;
    kind_fits(rows, names, entries, m, i, left, right)
}

// Whether the kind of each of the `m` entries is right.
pub fn kinds_ok(rows: &[u32], roots: &[u32], names: &[u32], entries: &[u32], m: usize) -> bool
    requires { GivenBook (λ b β. Known b β rows.now roots.now names.now entries.now m) }
    ensures { TestAnswers (λ b β. Known b β rows.now roots.now names.now entries.now m)
        (λ b β. all (kind_right b β (table_of entries.now m)) (table_of entries.now m)) result }
{
    (0..m).all(|i| kind_ok(rows, roots, names, entries, m, i))
}
