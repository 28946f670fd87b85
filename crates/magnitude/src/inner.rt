// What the magnitude enumeration is made of.
pub mod read;
pub mod row;
pub mod weigh;
