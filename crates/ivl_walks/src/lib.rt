//! Walks over two lists of runs at once, the words and lemmas: where a walk stands, which run it holds, and what it has written.
//! The merges of `ivl_merges` are such walks, and so are comparisons of sets. There is no code here.
#![tactic(auto)]
