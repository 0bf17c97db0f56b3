// One-axis joints in their pose, carried through without the products by the zeros and ones that their kind fixes.
#![tactic(auto)]

mod pose;

pub use pose::{Own, Pose};
