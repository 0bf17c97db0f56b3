// Symmetric inertias of rigid bodies and of articulated ones, over any ring.
#![tactic(auto)]

mod inertia;

pub use inertia::Inertia;
