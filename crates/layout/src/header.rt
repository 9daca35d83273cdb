// An area's header (docs/LAYOUT.md). The rows of a part are loaded and stored by `words::load` and `words::store` at the word where
// it begins (`offsets`).

ghost use Rattle.std.specs.Prelude.{◌≡◌, ◌*◌, ◌≤◌, length};
ghost use Rattle.model.specs.Area.{word_size, header_words, word};
ghost use Rattle.layout.specs.words.Words.{laid};
ghost use Rattle.layout.specs.header.Row.{words_of};

// The header of an area.
#[derive(Clone, Copy)]
pub struct Header {
    pub capacity: u32,
    pub terms: u32,
    pub entries: u32,
    pub lines: u32,
}

pub fn load_header(area: &[u8]) -> Header
    requires { word_size * header_words ≤ length area.now }
    ensures { (result.capacity ≡ word area.now 0) × (result.terms ≡ word area.now 1)
        × (result.entries ≡ word area.now 2) × (result.lines ≡ word area.now 3) }
{
    Header {
        capacity: crate::words::word_at(area, 0),
        terms: crate::words::word_at(area, crate::limits::WORD_BYTES),
        entries: crate::words::word_at(area, 2 * crate::limits::WORD_BYTES),
        lines: crate::words::word_at(area, 3 * crate::limits::WORD_BYTES),
    }
}

pub fn store_header(area: &mut [u8], h: Header)
    requires { word_size * header_words ≤ length area.old }
    ensures { area.new ≡ laid area.old 0 (words_of h) }
{
    let words = [h.capacity, h.terms, h.entries, h.lines];
    crate::words::store(area, 0, &words);
}
