// What the call quantize works with. Each function says what it asks of its caller.
pub mod coefficients;
pub mod radius;
