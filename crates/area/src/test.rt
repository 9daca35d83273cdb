// An area read: the test of its soundness, and its state loaded for a step (module `load`).

ghost use Rattle.std.specs.Prelude.{◌≡◌, true, ◌*◌, take};
ghost use Rattle.model.specs.Area as Area;
ghost use Rattle.model.specs.Area.{entry_row_words, word};
ghost use Rattle.layout.specs.limits.Limits.{limits_of};
ghost use Rattle.layout.specs.header.Held.{held};
ghost use Rattle.pairs.specs.Lent.{SameSlices};
ghost use Rattle.area.specs.load.Loading.{Sizes, header_of};
ghost use Rattle.area.specs.load.Ready.{Lent, ReadFrom};

use crate::load::Held;
use layout::limits::Limits;
use pairs::Index;
use values::term::Terms;

// Whether an area of any length and any bytes is sound; then the slices hold the words of its state, those of the entries at the
// front of theirs, the list of its terms, what each stands for and its name. The index is scratch.
// The slices are parameters here and in `calls`: a struct of them would be no plainer, since each contract on it would have to say that it
// keeps the `&mut`, and what they hold is another thing after each test, so that no ghost field could say it.
pub fn sound(
    lim: Limits,
    area: &[u8],
    rows: &mut [u32],
    bindings: &mut [u32],
    list: &mut [u32],
    roots: &mut [u32],
    names: &mut [u32],
    lines: &mut [u32],
    entries: &mut [u32],
    index: &mut Index,
) -> bool
    requires sizes { Sizes (limits_of lim) lim.capacity rows.old bindings.old lines.old entries.old }
    requires lent { Lent (limits_of lim) list.old roots.old names.old index.old.lefts.now index.old.rights.now index.old.cells.now }
    ensures sound { result ≡ Area.sound (limits_of lim) area.now }
    ensures read { result ≡ true → ReadFrom (limits_of lim) area.now
        (held (header_of area.now) rows.new bindings.new lines.new (take (entry_row_words * word area.now 0) entries.new))
        list.new roots.new names.new }
    ensures same_slices { SameSlices index.old index.new }
{
    if !crate::load::header_ok(lim, area) {
        return false;
    }
    let header = layout::header::load_header(area);
    let n = header.terms;
    let m = header.entries as usize;
    let end = layout::limits::ENTRY_WORDS * (header.capacity as usize);
    let table = &mut entries[..end];
    crate::load::load(lim, area, rows, bindings, lines, table);
    let state = Held {
        header,
        rows,
        bindings,
        lines,
        entries: table,
    };
    state.rows_ok()
        && values::evaluate::name_terms(Terms { rows, bindings, n }, list, roots, names, index)
        && soundness::entries::table_ok(rows, roots, names, table, m, index)
}
