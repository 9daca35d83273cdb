// One step on a loaded state, whichever it is, and what it leaves stored in the area (specs/take/Taking.antt; document 01,
// "Add a line", "Fix a choice").

ghost use Rattle.std.specs.Prelude.{◌≡◌, ◌≤◌, length};
ghost use Rattle.model.specs.Area.{area_length};
ghost use Rattle.layout.specs.limits.Limits.{limits_of};
ghost use Rattle.layout.specs.limits.Rows.{Sized, loaded_state};
ghost use Rattle.layout.specs.header.Held.{held};
ghost use Rattle.pairs.specs.Lent.{SameSlices};
ghost use Rattle.area.specs.load.Ready.{Lent, Ready};
ghost use Rattle.refusal.specs.Numbers.{number_by};
ghost use Rattle.step.specs.answer.Stepped.{answer_of, header_after, Gives};
ghost use Rattle.step.specs.take.Taking.{step_of, state_after, stored_bytes};

use crate::answer::{Step, Stepped};
use area::load::Held;
use layout::header::Header;
use layout::limits::Limits;
use pairs::Index;
use refusal::{Numbered, Refusal};
use table::visit::NamedTerms;

// Takes a step on a loaded state. The index is scratch. The slices are parameters here and in what this calls, for the reason said at
// `area::test::sound`.
pub fn take(
    lim: Limits,
    h: Header,
    rows: &[u32],
    bindings: &mut [u32],
    list: &mut [u32],
    roots: &mut [u32],
    names: &mut [u32],
    lines: &mut [u32],
    entries: &mut [u32],
    step: Step,
    index: &mut Index,
) -> Result<Stepped, Refusal>
    requires ready { Ready (limits_of lim) (held h rows.now bindings.old lines.old entries.old) list.old roots.old names.old }
    requires lent { Lent (limits_of lim) list.old roots.old names.old index.old.lefts.now index.old.rights.now index.old.cells.now }
    ensures gives { Gives (limits_of lim) step (step_of (limits_of lim) step (loaded_state (held h rows.now bindings.old lines.old entries.old)))
        (answer_of result) (held (header_after h result) rows.now bindings.new lines.new entries.new) }
    ensures same_slices { SameSlices index.old index.new }
{
    match step {
        Step::Add(l, r) => {
            let terms = NamedTerms { rows, roots, names };
            crate::add_line::add_line(lim, h, terms, lines, entries, l, r, index)
        }
        Step::Bind(v, t) => {
            crate::bind::bind(h, rows, bindings, list, roots, names, entries, v, t, index)
        }
    }
}

// Stores the state after a step that was accepted: `state` has what the slices hold after it, under the header before it. A refused
// one changes no byte. The answer's number says which it is, whatever tells it: where that of an `Err` is 0, as only a bare number's can
// be, nothing is refused, and the header stays.
#[tactic(auto, unfolding(crate::specs::take::Taking::stored_bytes))]
pub fn keep<E: Numbered>(lim: Limits, area: &mut [u8], s: Result<Stepped, E>, state: Held)
    requires fits { area_length (limits_of lim) state.header.capacity ≤ length area.old }
    requires sized { number_by E.its_number s ≡ 0 → Sized (limits_of lim) (state_after s state) }
    ensures { area.new ≡ stored_bytes (number_by E.its_number s) (state_after s state.entry) area.old }
{
    if refusal::number(s) != 0 {
        return;
    }
    let header = match s {
        Ok(s) => Header {
            entries: s.entries,
            lines: s.lines,
            ..state.header
        },
        Err(_) => state.header,
    };
    let after = Held { header, ..state };
    after.store(lim, area);
}
