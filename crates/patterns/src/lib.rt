// The pattern counts (docs/RULES.md, "The product index"), stored: one load a count. The table stands in `inner`.
#![tactic(auto)]

pub mod inner;
