// The tokens of the grammar: texts, blank runs, names, numbers and strings. Each matcher takes the part of the source that
// starts at the cursor and answers what the grammar takes of it.
#![tactic(auto)]

pub mod blanks;
pub mod bytes;
pub mod lists;
pub mod texts;
pub mod tokens;
