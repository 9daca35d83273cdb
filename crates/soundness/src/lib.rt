#![tactic(auto)]

// The tests of a loaded state that together are the soundness of an area (document 01, "Areas"), in the order in which they are
// made. They only read what is tested.
//
// rows        the tests of words that those of rows are made of
// term_rows   the rows of terms and the bindings, as far as words alone tell
// table_rows  the lines and the rows of entries, as far as words alone tell
// sound       all tests together are the soundness of the definitions: statements and proofs only
// kinds       the kinds of the entries, on names and roots that are computed
// distinct    no two entries hold one pair of terms
// entries     same-as, and with it all tests of values and of pairs of entries

mod distinct;
pub mod entries;
pub mod kinds;
pub mod rows;
pub mod sound;
pub mod table_rows;
pub mod term_rows;
