// Dual numbers over any ring.
#![tactic(auto)]

mod dual;

pub use dual::Dual;
