// A cell of the page, a state and a record for one place (docs/RULES.md, "The page"). No call stands here: what the
// calls of the page do with a cell is in `inner`.
#![tactic(auto)]

pub mod inner;
