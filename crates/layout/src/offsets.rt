// Where the parts of an area begin, in words, and the length that it needs (docs/LAYOUT.md). The term rows begin at
// HEADER_WORDS.

ghost use Rattle.std.specs.Prelude.{◌≡◌, ◌≤◌};
ghost use Rattle.model.specs.Area.{bindings_at, lines_at, entries_at, area_length};
ghost use Rattle.layout.specs.limits.Limits.{limits_of};

use crate::limits::Limits;

// The words at which the bindings, the lines and the entries begin.
pub fn bindings_at(lim: Limits) -> usize
    ensures { result ≡ bindings_at (limits_of lim) }
{
    crate::limits::HEADER_WORDS + crate::limits::TERM_WORDS * lim.terms
}

pub fn lines_at(lim: Limits) -> usize
    ensures { result ≡ lines_at (limits_of lim) }
{
    bindings_at(lim) + lim.terms
}

pub fn entries_at(lim: Limits) -> usize
    ensures { result ≡ entries_at (limits_of lim) }
{
    lines_at(lim) + lim.lines
}

// The length that an area of this capacity needs, in bytes.
pub fn needed_length(lim: Limits, capacity: usize) -> usize
    requires { capacity ≤ lim.capacity }
    ensures { result ≡ area_length (limits_of lim) capacity }
{
    crate::limits::WORD_BYTES * (entries_at(lim) + crate::limits::ENTRY_WORDS * capacity)
}
