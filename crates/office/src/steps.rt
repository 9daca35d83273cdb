// The arrays of the office's sizes for a step on an area.

ghost use Rattle.model.specs.Limits.{office};
ghost use Rattle.calls.specs.Called.{call_step, Called};

use crate::read::{CELLS, PAIRS, TABLE_WORDS};
use pairs::Index;
use refusal::Refusal;
use step::answer::{Accepted, Step};

// Takes a step on an area of any length and any bytes.
pub fn step(area: &mut [u8], step: Step) -> Result<Accepted, Refusal>
    ensures { Called (call_step office step area.old) step result area.new }
{
    let mut rows = [0u32; layout::limits::ROWS];
    let mut bindings = [0u32; layout::limits::OFFICE_TERMS];
    let mut list = [0u32; layout::limits::OFFICE_TERMS];
    let mut roots = [0u32; layout::limits::OFFICE_TERMS];
    let mut names = [0u32; layout::limits::OFFICE_TERMS];
    let mut lines = [0u32; layout::limits::OFFICE_LINES];
    let mut entries = [0u32; TABLE_WORDS];
    let mut lefts = [0u32; PAIRS];
    let mut rights = [0u32; PAIRS];
    let mut cells = [0u32; CELLS];
    let mut index = Index {
        lefts: &mut lefts,
        rights: &mut rights,
        cells: &mut cells,
    };
    calls::call_step(
        layout::limits::OFFICE,
        area,
        &mut rows,
        &mut bindings,
        &mut list,
        &mut roots,
        &mut names,
        &mut lines,
        &mut entries,
        step,
        &mut index,
    )
}
