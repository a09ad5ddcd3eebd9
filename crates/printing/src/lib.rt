// What the programs write, on a lent page: texts and numbers, the lines of an answer, and those of layouts. A full page takes no more.
#![tactic(auto)]

pub mod answers;
pub mod layouts;
pub mod lines;
pub mod pages;
