// The record of a vector that has passed every check (docs/RULES.md, "Quantizing into a record"). What the call
// quantize works with stands in `inner`.
#![tactic(auto)]

pub mod inner;
