// Symmetric 3 by 3 matrices, over any ring.
#![tactic(auto)]

mod symmetric;

pub use symmetric::{Symmetric3, leaned};
