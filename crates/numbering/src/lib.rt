// The one door to the numbering of points: whoever needs a total, the index of a point, whether an index names a
// point, or the point of an index, asks here. No other crate above knows how the points are numbered: where an index
// stands is handed on as it was found. No call stands here: the functions are in `inner`.
#![tactic(auto)]

pub mod inner;
