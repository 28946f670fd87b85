// What the calls of the page and the listing do with a place.
pub mod looking;
pub mod opening;
pub mod showing;
