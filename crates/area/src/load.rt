// The state of an area, loaded and tested in parts: the header, and the words of each part.

ghost use Rattle.std.specs.Prelude.{◌≡◌, T};
ghost use Rattle.model.specs.Area.{word};
ghost use Rattle.layout.specs.limits.Limits.{limits_of};
ghost use Rattle.soundness.specs.sound.Sound.{loaded, header_ok};
ghost use Rattle.area.specs.load.Loading.{Sizes, Words};

use layout::header::Header;
use layout::limits::Limits;

// Whether the header's numbers lie in their ranges and the area has the length that its capacity needs.
#[tactic(auto, unfolding(soundness::specs::sound::Sound::header_ok, model::specs::Area::area_length))]
pub fn header_ok(lim: Limits, area: &[u8]) -> bool
    ensures { result ≡ header_ok (limits_of lim) area.now }
{
    if area.len() < layout::limits::WORD_BYTES * layout::limits::HEADER_WORDS {
        return false;
    }
    let h = layout::header::load_header(area);
    let capacity = h.capacity as usize;
    1 <= capacity
        && capacity <= lim.capacity
        && h.terms as usize <= lim.terms
        && h.entries <= h.capacity
        && h.lines as usize <= lim.lines
        && layout::offsets::needed_length(lim, capacity) <= area.len()
}

// Loads the rows of an area whose header is in order.
pub fn load(
    lim: Limits,
    area: &[u8],
    rows: &mut [u32],
    bindings: &mut [u32],
    lines: &mut [u32],
    entries: &mut [u32],
)
    requires { T (header_ok (limits_of lim) area.now)
        × Sizes (limits_of lim) (word area.now 0) rows.old bindings.old lines.old entries.old }
    ensures { Words (loaded (limits_of lim) area.now) rows.new bindings.new lines.new entries.new }
{
    layout::words::load(area, layout::limits::HEADER_WORDS, rows);
    layout::words::load(area, layout::offsets::bindings_at(lim), bindings);
    layout::words::load(area, layout::offsets::lines_at(lim), lines);
    layout::words::load(area, layout::offsets::entries_at(lim), entries);
}

// A state in a header and slices, as it is loaded.
#[derive(Clone, Copy)]
pub struct Held<'a> {
    pub header: Header,
    pub rows: &'a [u32],
    pub bindings: &'a [u32],
    pub lines: &'a [u32],
    pub entries: &'a [u32],
}

impl<'a> Held<'a> {
    ghost use Rattle.soundness.specs.sound.Sound.{rows_ok};
    ghost use Rattle.area.specs.load.Loading.{Used};
    ghost use Rattle.area.specs.load.Held.{state_in};

    // Whether the loaded rows pass the tests that look at words alone.
    #[tactic(auto, unfolding(soundness::specs::sound::Sound::rows_ok))]
    pub fn rows_ok(self) -> bool
        requires { Used (state_in self) }
        ensures { result ≡ rows_ok (state_in self.entry) }
    {
        let n = self.header.terms as usize;
        let m = self.header.entries as usize;
        soundness::term_rows::term_rows_ok(self.rows, n)
            && soundness::term_rows::bindings_ok(self.rows, self.bindings, n)
            && soundness::table_rows::lines_ok(self.lines, self.header.lines as usize, m)
            && soundness::table_rows::entry_rows_ok(self.entries, m, n)
    }
}
