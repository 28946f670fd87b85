// A coordinate of a point in code, an i32 of any value: its magnitude, its sign, and the sum of the magnitudes of a
// vector. No call stands here: the functions are in `inner`.
#![tactic(auto)]

pub mod inner;
