#![tactic(auto)]

// The values of the terms of a book with bindings: what each term stands for, whether a variable occurs in a value, and the name
// of each value, the lowest term that has it.
//
// term      the terms as the others take them: of each its symbol, its arguments and what it is bound to
// order     the terms in an order in which all that a value is made of comes first
// roots     what each term stands for, and whether a variable occurs in a value
// names     the name of every term, by classes of terms along that order
// evaluate  all three of a book with bindings

pub mod evaluate;
pub mod names;
mod order;
pub mod roots;
pub mod term;
