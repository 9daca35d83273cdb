// Adding a line to a loaded state, as its definition says (specs/add_line/Adding.antt; document 01, "Add a line").

ghost use Rattle.layout.specs.limits.Limits.{limits_of};
ghost use Rattle.pairs.specs.Lent.{SameSlices, RoomIn};
ghost use Rattle.step.specs.add_line.Adding.{GivenBindings, AddsLine};

use crate::answer::{Accepted, Stepped};
use layout::header::Header;
use layout::limits::Limits;
use pairs::Index;
use refusal::Refusal;
use table::visit::NamedTerms;

// Adds the line of the terms `l` and `r`: 8 where one is no term, 12 where there is no room for a line, 11 where there is none for
// its entries. The answer is the line's entry.
pub fn add_line(
    lim: Limits,
    h: Header,
    terms: NamedTerms,
    lines: &mut [u32],
    entries: &mut [u32],
    l: u32,
    r: u32,
    index: &mut Index,
) -> Result<Stepped, Refusal>
    requires given { GivenBindings (limits_of lim) h terms.rows.now terms.roots.now terms.names.now lines.old entries.old }
    requires room { RoomIn index.old h.capacity }
    ensures added { AddsLine (limits_of lim) h terms.entry.rows.now terms.entry.roots.now terms.entry.names.now lines.old entries.old l r
        result lines.new entries.new }
    ensures same_slices { SameSlices index.old index.new }
{
    if h.terms <= l {
        return Err(Refusal::NamesNothing);
    }
    if h.terms <= r {
        return Err(Refusal::NamesNothing);
    }
    let k = h.lines as usize;
    if lim.lines <= k {
        return Err(Refusal::TooManyLines);
    }
    let capacity = h.capacity as usize;
    let m = h.entries as usize;
    let g = crate::grow::grow(terms, entries, capacity, m, l, r, index)?;
    lines[k] = g.entry;
    Ok(Stepped {
        accepted: Accepted::Added { entry: g.entry },
        entries: g.count as u32,
        lines: h.lines + 1,
    })
}
