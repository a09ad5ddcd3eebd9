// The entries for a Rust host: each calls one function of the port, and its statement cites the same definition. A host lends slice by
// slice, so tables stay parameters of their own, refusals numbers, and answers arrays that are lent.
#![tactic(auto)]

pub mod aligning;
pub mod feeding;
pub mod matching;
pub mod places;
pub mod recording;
pub mod sources;
pub mod texts;
