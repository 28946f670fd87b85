// The fields of a row, and whether it is bad by itself.
pub mod fault;
pub mod row;
