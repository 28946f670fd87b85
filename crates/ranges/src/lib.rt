// The ranges of a shell in code (docs/RULES.md, "The product index" and "The product-product index"): pattern, shape
// and sign counts, the room of a shape field, the size and the start of a range, and how many indices there are. They
// stand in `inner`.
#![tactic(auto)]

pub mod inner;
