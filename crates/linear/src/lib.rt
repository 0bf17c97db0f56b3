// 3 by 3 matrices, over any ring.
#![tactic(auto)]

mod matrix;

pub use matrix::Matrix3;
