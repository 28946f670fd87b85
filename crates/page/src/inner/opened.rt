// What the calls of the page know of a page once its survey has answered.
use layout::Layout;
use tables::Books;

// The table and how many places it has, how many books share it, and how the page is kept.
#[derive(Clone, Copy)]
pub struct Opened<'a> {
    pub table: &'a [u8],
    pub places: usize,
    pub books: Books,
    pub layout: Layout,
}
