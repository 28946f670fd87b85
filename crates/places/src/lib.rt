// The places of a page: what is asked of a table and a page before a place is looked at, one looked at, and what it
// shows. No call stands here: the calls of the page are in `page`, and the listing's in `report`.
#![tactic(auto)]

pub mod inner;
