// A radius shared out among magnitudes. No call stands here: what the calls that quantize need is in `inner`.
#![tactic(auto)]

pub mod inner;
