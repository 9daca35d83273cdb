#![tactic(auto)]

// The pair table in slices, each step as its definition says (document 01, "The pair table"). The rows of the entries hold the
// table; the names of their two sides are indexed beside them.
//
// place     a pair placed: the lowest entry with its two values, or the next free one
// visit     argument pairs placed, an entry turned or visited
// index     the index of a table
// same_as   same-as of every entry
// saturate  the walk until nothing is left to turn

pub mod index;
pub mod place;
pub mod same_as;
pub mod saturate;
pub mod visit;
