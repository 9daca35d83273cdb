// Bytes as words of four bytes, lowest byte first, and back (specs/words/Words.antt). A place goes beside its area: the clauses name it
// (`words_at`, `laid`, `cleared`).

ghost use Rattle.std.specs.Prelude.{◌≡◌, ◌+◌, ◌*◌, ◌≤◌, length, take, drop};
ghost use Rattle.std.proofs.lemmas.List.Edits.{sets};
ghost use Rattle.model.specs.Area.{word_size, from_bytes, to_bytes, words_at};
ghost use Rattle.layout.specs.words.Words.{laid, cleared};

// The word whose lowest byte stands at byte `at`.
pub fn word_at(area: &[u8], at: usize) -> u32
    requires { at + word_size ≤ length area.now }
    ensures { result ≡ from_bytes (take word_size (drop at area.now)) }
{
    u32::from_le_bytes([area[at], area[at + 1], area[at + 2], area[at + 3]])
}

// Puts the bytes of `w` at byte `at`, the lowest first.
fn put_word(area: &mut [u8], at: usize, w: u32)
    requires { at + word_size ≤ length area.old }
    ensures { area.new ≡ sets area.old at (to_bytes word_size w) }
{
    area[at..at + crate::limits::WORD_BYTES].copy_from_slice(&w.to_le_bytes());
}

// Loads the words from word `start` on, as many as `words` has places.
pub fn load(area: &[u8], start: usize, words: &mut [u32])
    requires { word_size * (start + length words.old) ≤ length area.now }
    ensures { words.new ≡ words_at area.now start (length words.old) }
{
    for (i, w) in words.iter_mut().enumerate() {
        *w = word_at(area, crate::limits::WORD_BYTES * (start + i));
    }
}

// Stores the words from word `start` on.
pub fn store(area: &mut [u8], start: usize, words: &[u32])
    requires { word_size * (start + length words.now) ≤ length area.old }
    ensures { area.new ≡ laid area.old start words.now }
{
    for (i, w) in words.iter().enumerate() {
        put_word(area, crate::limits::WORD_BYTES * (start + i), *w);
    }
}

// Puts zeros from byte `from` up to byte `to`.
// Words have `clearing::clear`: each is one call of the library, so that one generic function is no plainer.
pub fn clear(area: &mut [u8], from: usize, to: usize)
    requires { (from ≤ to) × (to ≤ length area.old) }
    ensures { area.new ≡ cleared area.old from to }
{
    area[from..to].fill(0);
}
