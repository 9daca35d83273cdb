#![tactic(auto)]

// An area's bytes and the state that they hold: the state loaded, the test whether an area of any bytes is sound, and a state
// stored.
//
// load  the header and the words of each part, loaded and tested in parts
// test  whether an area is sound; then its state is loaded for a step
// save  a state stored into an area, and a book just opened

pub mod load;
pub mod save;
pub mod test;
