// A row of the pairing table (docs/RULES.md, "Pairing table"). No call stands here: what the calls ask of a row is
// in `inner`.
#![tactic(auto)]

pub mod inner;
