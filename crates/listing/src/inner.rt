// What the program is made of.
pub mod input;
pub mod output;
