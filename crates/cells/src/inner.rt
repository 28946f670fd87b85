// What the calls of the page do with one cell.
pub mod rule;
pub mod spot;
