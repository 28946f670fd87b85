// What the two programs read and print with (docs/RULES.md, "Listing program" and "Sender program"). No call stands
// here: the calls that decide what is printed are in `report` and `sending`.
#![tactic(auto)]

pub mod inner;
