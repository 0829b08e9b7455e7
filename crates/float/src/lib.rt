// Floats: the operations on `f32` that the project needs beside the operators. Each is defined for every float.
#![tactic(auto)]

mod bits;
mod fault;
mod interpolate;
mod near;
mod order;
mod root;
mod roots;
mod rounding;

pub use bits::{from_bits, is_finite};
pub use interpolate::lerp;
pub use order::{max, min};
pub use root::sqrt;
pub use roots::sqrt_each;
