// The shells that are usable, the pairing table and the books that share it, as definitions and laws (docs/RULES.md,
// "Points and counts", "Pairing table" and "Books"): specs/ states them and proofs/ proves them. No function is here.
// The number of books and that of a book, which calls are given, are declared here.
#![tactic(auto)]

// How many books a page holds. 1 to 16 are good, and any other number is refused.
#[derive(Clone, Copy)]
pub struct Books(pub usize);

// Which of the books is meant, numbered from 0.
#[derive(Clone, Copy)]
pub struct Book(pub usize);

// The programs have one book.
pub const ONE_BOOK: usize = 1;

pub const ONLY_BOOK: usize = 0;
