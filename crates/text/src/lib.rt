// The text of the listing (docs/RULES.md, "Listing program"): numbers, words and lines, written into a lent buffer.
// No call stands here: the calls that write a page as text are in `report`.
#![tactic(auto)]

pub mod inner;
