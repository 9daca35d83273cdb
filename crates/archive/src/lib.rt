#![tactic(auto)]

// Books for the archive (docs/SPEC.md, "Stored book and its list"): stored with their variables first, beside the list of their terms' old
// numbers, and restored. No area is used.
//
// list       the list of a stored book, a list read from bytes, and its inverse
// moving     term rows moved to new numbers
// storing    a book stored
// restoring  a book restored

mod list;
mod moving;
pub mod restoring;
pub mod storing;
