// The point of an index by the product and the product-product enumeration, for a shell that has passed its checks. The
// calls are in `points`; the index of a point is in `weighing`.
#![tactic(auto)]

pub mod inner;
