// The numbers of a line, taken one after the other, and what is made of them. No call stands here.
pub mod numbers;
