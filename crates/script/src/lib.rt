// What the cases are read from and written with: the numbers of a line, and what a call says behind it.
#![tactic(auto)]

pub mod inner;
pub mod input;
pub mod output;
