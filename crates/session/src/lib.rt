#![tactic(auto)]

// A session over lent bytes (docs/SPEC.md, "Sessions"): opening it, where it is refused, what is asked for at a position of its input,
// one step of it, numbers as decimal text, and what is said where it stops.
//
// text     numbers as decimal text in a buffer
// command  the command at a position of a session's input
// steps    a session opened, and one step of it
// fault    where a refused opening is refused
// said     what is said where a session stops

pub mod command;
pub mod fault;
pub mod said;
pub mod steps;
pub mod text;
