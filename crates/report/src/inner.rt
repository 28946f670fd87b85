// What the calls of the report are made of.
pub mod block;
pub mod refusal;
