#![tactic(auto)]

// A book's bytes (docs/SPEC.md, "Bytes"): read into term rows, with the refusals in document 01's order, and term rows written
// as a book.
//
// parse   a number, and the parts of a term, at a position of the bytes
// reader  a term, by a reader that moves through its parts
// decode  all terms, and a book's bytes into term rows
// unread  how far a book's bytes are read
// write   a term: its length, and writing it
// encode  term rows into a book's bytes

pub mod decode;
pub mod encode;
mod parse;
pub mod reader;
pub mod unread;
mod write;
