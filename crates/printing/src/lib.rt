#![tactic(auto)]

// What a session prints (docs/SPEC.md, "Sessions"): the line of an opening or a step, and the text of a report kept for the next
// report.
//
// lines  the line that an opening or a step prints, as text
// whole  a whole session on bytes is the session of the definitions: statements and proofs only
// turns  one step and the text of its line, with a report's text kept

pub mod lines;
pub mod turns;
pub mod whole;
