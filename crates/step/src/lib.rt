#![tactic(auto)]

// A step on a loaded state: a line added or a choice fixed (document 01, "Add a line", "Fix a choice"), and what it leaves stored
// in the area.
//
// answer    a step, and what it answers and leaves
// grow      a pair of terms placed in a table, which is then walked through
// add_line  a line added
// settle    an indexed table walked through, and its same-as set
// rebuild   the table under bindings that have changed
// bind      a choice fixed
// take      one step, whichever it is, and what it leaves stored

mod add_line;
pub mod answer;
mod bind;
mod grow;
mod rebuild;
mod settle;
pub mod take;
