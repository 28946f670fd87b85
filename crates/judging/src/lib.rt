// The answer of a cell of the page (docs/RULES.md, "Reading a place"). No call stands here: what the calls of the page
// ask is in `inner`.
#![tactic(auto)]

pub mod inner;
