// A vector of coefficients (docs/RULES.md, "Quantizing into a record"): their check, their whole numbers, their
// signs, and the choice of the radius.
#![tactic(auto)]

pub mod inner;
