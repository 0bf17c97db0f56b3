// Placements and links of rigid bodies, over any ring.
#![tactic(auto)]

mod link;
mod placement;

pub use link::Link;
pub use placement::Placement;
