// Rotations by four numbers, over any ring.
#![tactic(auto)]

mod quaternion;

pub use quaternion::Quaternion;
