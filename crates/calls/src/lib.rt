#![tactic(auto)]

// A step on an area's bytes: the area is tested and loaded, the step is taken on the loaded state, and what it leaves is stored
// (document 01, "Add a line", "Fix a choice").

ghost use Rattle.layout.specs.limits.Limits.{limits_of};
ghost use Rattle.pairs.specs.Lent.{SameSlices};
ghost use Rattle.area.specs.load.Loading.{Sizes};
ghost use Rattle.area.specs.load.Ready.{Lent};
ghost use Rattle.calls.specs.Called.{call_step, Called};

use area::load::Held;
use layout::limits::Limits;
use pairs::Index;
use refusal::Refusal;
use step::answer::{Accepted, Step};

// Takes a step on an area of any length and any bytes. The slices are those of `area::test::sound`.
pub fn call_step(
    lim: Limits,
    area: &mut [u8],
    rows: &mut [u32],
    bindings: &mut [u32],
    list: &mut [u32],
    roots: &mut [u32],
    names: &mut [u32],
    lines: &mut [u32],
    entries: &mut [u32],
    step: Step,
    index: &mut Index,
) -> Result<Accepted, Refusal>
    requires sizes { Sizes (limits_of lim) lim.capacity rows.old bindings.old lines.old entries.old }
    requires lent { Lent (limits_of lim) list.old roots.old names.old index.old.lefts.now index.old.rights.now index.old.cells.now }
    ensures called { Called (call_step (limits_of lim) step area.old) step result area.new }
    ensures same_slices { SameSlices index.old index.new }
{
    if !area::test::sound(
        lim, area, rows, bindings, list, roots, names, lines, entries, index,
    ) {
        return Err(Refusal::NotSound);
    }
    let header = layout::header::load_header(area);
    let end = layout::limits::ENTRY_WORDS * (header.capacity as usize);
    let table = &mut entries[..end];
    let s = step::take::take(
        lim, header, rows, bindings, list, roots, names, lines, table, step, index,
    );
    let state = Held {
        header,
        rows,
        bindings,
        lines,
        entries: table,
    };
    step::take::keep(lim, area, s, state);
    Ok(s?.accepted)
}
