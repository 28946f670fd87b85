// What the point of an index is made of.
pub mod components;
pub mod range;
pub mod read;
