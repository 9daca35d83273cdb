#![tactic(auto)]

// The layout of an area (docs/LAYOUT.md): its numbers and limits, where its parts begin, and how its words, its header and the
// row of an entry are read and written.
//
// limits    the numbers of the layout and the limits, each once; the rows of a state
// offsets   where the parts of an area begin, and the length that it needs
// words     bytes as words of four bytes, lowest byte first, and back
// header    an area's header
// entry     an entry's row as a struct
// clearing  the front of a slice of words, cleared

pub mod clearing;
pub mod entry;
pub mod header;
pub mod limits;
pub mod offsets;
pub mod words;
