#![tactic(auto)]

// The report of a sound state (docs/SPEC.md, "Bytes"): the classes of its table numbered afresh, and the bytes of the report, its
// length first.
//
// numbering  the classes numbered in the order in which lines and arguments lead to them
// write      the report's length, writing it, and both together

mod numbering;
pub mod write;
