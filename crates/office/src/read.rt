// An area read into arrays of the office's sizes, for the calls that show what it holds.
// Each call has the arrays that it reads into, as `steps` has its own: a rule of the project, fixed memory in the shells. One function could
// hold them only around a closure, whose contract would be longer than they are.

ghost use Rattle.std.specs.Prelude.{◌≡◌, true, false, ◌*◌, length, MatchResult};
ghost use Rattle.model.specs.Limits.{office};
ghost use Rattle.model.specs.Area.{term_words, entry_row_words, sound};
ghost use Rattle.refusal.specs.declared.Refusal.TheVariants.{NotSound};
ghost use Rattle.area.specs.load.Loading.{header_of};
ghost use Rattle.office.specs.read.Viewed.{Viewed};

use layout::header::Header;
use pairs::Index;
use refusal::Refusal;

// The words of the largest table.
pub const TABLE_WORDS: usize = layout::limits::ENTRY_WORDS * layout::limits::OFFICE_CAPACITY;

// The pairs that there is room for in the scratch of a call: one for each entry, of which there are at least as many as terms.
pub const PAIRS: usize = layout::limits::OFFICE_CAPACITY;

// The cells of their index.
pub const CELLS: usize = pairs::BUCKETS + 2 * PAIRS;

// The header of an area, 7 where it is not sound; then the slices have the rows of its terms, its lines, the rows of its entries and the
// names of its terms.
pub fn read(
    area: &[u8],
    rows: &mut [u32],
    names: &mut [u32],
    lines: &mut [u32],
    entries: &mut [u32],
) -> Result<Header, Refusal>
    requires { (length rows.old ≡ term_words * office.max_terms) × (length lines.old ≡ office.max_lines)
        × (length entries.old ≡ entry_row_words * office.max_capacity) × (length names.old ≡ office.max_terms) }
    ensures { MatchResult result
        (λ h. (sound office area.now ≡ true) × (h ≡ header_of area.now) × Viewed area.now rows.new names.new lines.new entries.new)
        (λ e. (sound office area.now ≡ false) × (e ≡ NotSound)) }
{
    let mut bindings = [0u32; layout::limits::OFFICE_TERMS];
    let mut list = [0u32; layout::limits::OFFICE_TERMS];
    let mut roots = [0u32; layout::limits::OFFICE_TERMS];
    let mut lefts = [0u32; PAIRS];
    let mut rights = [0u32; PAIRS];
    let mut cells = [0u32; CELLS];
    let mut index = Index {
        lefts: &mut lefts,
        rights: &mut rights,
        cells: &mut cells,
    };
    if !area::test::sound(
        layout::limits::OFFICE,
        area,
        rows,
        &mut bindings,
        &mut list,
        &mut roots,
        names,
        lines,
        entries,
        &mut index,
    ) {
        return Err(Refusal::NotSound);
    }
    Ok(layout::header::load_header(area))
}
