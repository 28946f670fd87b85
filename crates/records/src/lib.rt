// A record, 8 bytes for one vector. No call stands here: what the calls do with a record's bytes is in `inner`.
#![tactic(auto)]

pub mod inner;
