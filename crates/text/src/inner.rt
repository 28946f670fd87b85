// What the calls of the report write with: the fields of a line, each behind the one before, and whole lines. In the
// contract of each stand the text and the most bytes that it takes.
pub mod fields;
pub mod lines;
