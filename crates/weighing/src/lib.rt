// The index of a point by the product and the product-product enumeration, for a shell that has passed its checks. The
// calls are in `points`; the point of an index is in `product`.
#![tactic(auto)]

pub mod inner;
