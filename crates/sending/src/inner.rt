// What the call send is made of.
pub mod run;
pub mod sending;
pub mod way;
