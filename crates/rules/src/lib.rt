// The page as definitions (docs/RULES.md, "The page"), tried on examples. Their laws are in `laws`. No function stands
// here: `page` has the calls. The mode and the answer of a cell, which both speak of, are declared here.
#![tactic(auto)]

// What a reading call is given. Any other number than these two is refused.
#[derive(Clone, Copy)]
pub struct Mode(pub usize);

pub const PLAIN: usize = 0;

pub const MENDING: usize = 1;

// Why a held record cannot be read.
#[derive(Clone, Copy)]
pub enum Reason {
    // 10: radius number not in the row
    NoSuchRadius,
    // 14: codeword 2^b or more
    TooWide,
    // 6: in plain mode, codeword past the end, with its distance
    PastEnd { distance: u64 },
    // 15: an empty shape, also after mending
    EmptyShape,
}

// What the cell of a place is judged to be: one of the five answers.
#[derive(Clone, Copy)]
pub enum Judged {
    // with the radius and the index of its point
    Sound {
        radius: usize,
        index: u64,
    },
    // and with the distance of the codeword that was received
    Mended {
        radius: usize,
        index: u64,
        distance: u64,
    },
    Missing,
    Contested,
    Unreadable(Reason),
}
