// The binomials, worked out by their product form (docs/RULES.md, "The product index": the shape count S(s,k) is
// binomial(k-1,s-1)). No call stands here: the functions are in `inner`.
#![tactic(auto)]

pub mod inner;
