// One-axis joints: how they are placed and how they move, over any ring.
#![tactic(auto)]

mod joint;
mod kind;

pub use joint::Joint;
pub use kind::{JointKind, UnknownKind};
