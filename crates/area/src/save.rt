// A state stored into an area: its header and the words of each part; and a book just opened.

ghost use Rattle.std.specs.Prelude.{◌≡◌, ◌*◌, ◌≤◌, length};
ghost use Rattle.model.specs.Lists.{concat_map};
ghost use Rattle.model.specs.Area.{word_size, term_words, to_bytes, area_length};
ghost use Rattle.model.specs.Call.{over};
ghost use Rattle.layout.specs.limits.Limits.{limits_of};
ghost use Rattle.layout.specs.limits.Rows.{Sized, loaded_words};
ghost use Rattle.area.specs.load.Held.{state_in};
ghost use Rattle.area.specs.save.Opened.{opened_words};

use crate::load::Held;
use layout::limits::Limits;

impl<'a> Held<'a> {
    // Writes the needed length of an area; what lies beyond it stays.
    #[tactic(auto, unfolding(model::specs::Area::area_length))]
    pub fn store(self, lim: Limits, area: &mut [u8])
        requires { Sized (limits_of lim) (state_in self)
            × (area_length (limits_of lim) self.header.capacity ≤ length area.old) }
        ensures { area.new ≡ over (concat_map (to_bytes word_size)
            (loaded_words (state_in self.entry))) area.old }
    {
        layout::header::store_header(area, self.header);
        layout::words::store(area, layout::limits::HEADER_WORDS, self.rows);
        layout::words::store(area, layout::offsets::bindings_at(lim), self.bindings);
        layout::words::store(area, layout::offsets::lines_at(lim), self.lines);
        layout::words::store(area, layout::offsets::entries_at(lim), self.entries);
    }
}

// Writes an area just opened: the header, the term rows, and zeros up to the needed length.
#[tactic(auto, unfolding(model::specs::Area::area_length))]
pub fn opened(lim: Limits, area: &mut [u8], capacity: u32, needed: usize, rows: &[u32], terms: u32)
    requires { (needed ≡ area_length (limits_of lim) capacity) × (needed ≤ length area.old) × (length rows.now ≡ term_words * lim.terms) }
    ensures { area.new ≡ over (concat_map (to_bytes word_size) (opened_words (limits_of lim) capacity terms rows.now)) area.old }
{
    let header = layout::header::Header {
        capacity,
        terms,
        entries: 0,
        lines: 0,
    };
    layout::header::store_header(area, header);
    layout::words::store(area, layout::limits::HEADER_WORDS, rows);
    layout::words::clear(
        area,
        layout::limits::WORD_BYTES * layout::offsets::bindings_at(lim),
        needed,
    );
}
