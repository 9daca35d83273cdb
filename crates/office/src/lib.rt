#![tactic(auto)]

// The calls with the office's limits, on bytes of any kind: each has the arrays of the office's sizes that it works in. Only
// `opening` and `steps` change an area.
//
// read     an area read into arrays, for the calls that show what it holds
// steps    a step on an area
// opening  a book opened in an area, and where it is refused
// copy     a book read and written back
// store    a book stored with its variables first
// restore  a book restored from a stored one and its list
// entry    an entry of an area
// books    the book of an area, written out
// reports  the report of an area

pub mod books;
pub mod copy;
pub mod entry;
pub mod opening;
mod read;
pub mod reports;
pub mod restore;
pub mod steps;
pub mod store;
