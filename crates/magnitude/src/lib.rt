// The magnitude enumeration: the index of a point and the point of an index, for a shell that has passed its checks.
// The calls are in `points`.
#![tactic(auto)]

pub mod inner;
