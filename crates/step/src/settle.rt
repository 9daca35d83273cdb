// An indexed table walked through, and its same-as set (specs/settle/Settled.antt; document 01, "Fix a choice").

ghost use Rattle.pairs.specs.Lent.{SameSlices};
ghost use Rattle.table.specs.place.Stands.{GivenTable, Whatever};
ghost use Rattle.table.specs.saturate.Walking.{ToWalkIn};
ghost use Rattle.step.specs.settle.Settled.{IsSettled};

use crate::answer::{Accepted, Stepped};
use layout::header::Header;
use pairs::Index;
use refusal::Refusal;
use table::visit::NamedTerms;

// Walks through an indexed table and sets same-as: 11, or how many entries turned and how many were appended.
pub fn walk_and_settle(
    h: Header,
    terms: NamedTerms,
    entries: &mut [u32],
    index: &mut Index,
) -> Result<Stepped, Refusal>
    requires { GivenTable (ToWalkIn terms entries.old index.old h.capacity h.entries) }
    ensures settled { Whatever (ToWalkIn terms.entry entries.old index.old h.capacity h.entries)
        (IsSettled h entries.new result) }
    ensures same_slices { SameSlices index.old index.new }
{
    let capacity = h.capacity as usize;
    let m = h.entries as usize;
    let w = table::saturate::walk(terms, entries, capacity, m, index)?;
    let count = w.count;
    table::same_as::settle(entries, count, index.lookup());
    Ok(Stepped {
        accepted: Accepted::Bound {
            turned: w.turned as u32,
            appended: (count - m) as u32,
        },
        entries: count as u32,
        lines: h.lines,
    })
}
