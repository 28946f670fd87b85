// What other calls ask of a table.
pub mod books;
pub mod starts;
pub mod survey;
pub mod walking;
