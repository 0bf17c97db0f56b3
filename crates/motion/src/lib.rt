// Motions and forces of rigid bodies, over any ring.
#![tactic(auto)]

mod vectors;

pub use vectors::{Force, Motion};
