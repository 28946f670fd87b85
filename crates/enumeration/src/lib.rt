// The points numbered: the definitions stand in specs/ and their laws in proofs/. No function is here; the calls
// are in `points`.
#![tactic(auto)]

// The selector of an enumeration, as a type of its own: a selector is never taken for an index (docs/RULES.md,
// "Enumerations").
#[derive(Clone, Copy)]
pub struct Selector(pub usize);
