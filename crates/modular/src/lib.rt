// Whole numbers modulo another, and their inverses.
#![tactic(auto)]

mod euclid;

pub use euclid::inverse_modulo;
