// Kinds of number: commutative rings whose units are told by their inverses.
#![tactic(auto)]

mod ring;

pub use ring::{Ring, whole};
