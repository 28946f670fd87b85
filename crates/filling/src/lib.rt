// A room that is filled with what comes, read by read: what comes next stands behind what came before. No call stands
// here: the function is in `inner`.
#![tactic(auto)]

pub mod inner;
