// What the programs that run test files share: the lines of such a file and their words, the lists that are lent, and how numbers are printed.

#![tactic(auto)]

pub mod lines;
pub mod lists;
pub mod shown;
pub mod words;
