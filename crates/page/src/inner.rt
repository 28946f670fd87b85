// What the calls of the page are made of.
pub mod opened;
pub mod reading;
pub mod taking;
pub mod tallying;
