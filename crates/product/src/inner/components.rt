// The components that a point is written from: the number s of nonzero coordinates, their sum k, the pattern index,
// the shape index, and the signs, which are the low s bits of `sign`; what stands above them is not looked at.
#[derive(Clone, Copy)]
pub struct Components {
    pub s: usize,
    pub k: usize,
    pub pattern: u32,
    pub shape: u32,
    pub sign: u64,
}
