//! Sets of whole numbers, lists of runs, counts and bounds: the words in which contracts are written, and the lemmas on them on
//! which all other crates stand. There is no code here.
#![tactic(auto)]
