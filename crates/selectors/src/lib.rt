// What a selector selects, in code (docs/RULES.md, "Enumerations"). No call stands here: the functions are in `inner`.
#![tactic(auto)]

pub mod inner;
