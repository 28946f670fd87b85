// f32 coefficients as whole numbers (docs/RULES.md, "Quantizing into a record"). No call stands here: what the
// calls on coefficients need is in `inner`.
#![tactic(auto)]

pub mod inner;
