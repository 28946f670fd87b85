// The two numbers of a shell, as types of their own: a length is never taken for a radius (docs/RULES.md, "Points
// and counts"); and the field that a shape has in an index. What is counted with them is defined in specs/, and its
// laws are in proofs/.
#![tactic(auto)]

// The length l of a point: how many coordinates it has.
#[derive(Clone, Copy)]
pub struct Length(pub usize);

// The radius k of a shell: what the magnitudes of a point sum to.
#[derive(Clone, Copy)]
pub struct Radius(pub usize);

// The shape field (docs/RULES.md, "The product-product index"): it has room for exactly S(s,k) numbers, or for as many
// as the fewest bits that are enough have.
#[derive(Clone, Copy)]
pub enum Field {
    Exact,
    Bits,
}
