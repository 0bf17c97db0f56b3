// The laws of recursions over a tree of linear maps, for any ring R and any paired modules of motions M and forces F.
#![tactic(auto)]

ghost use Rattle.tree_laws.specs.Theorems.{AbaIsRight, MassIsRight, MassIsSymmetric, RefusalIsRight, AllNatural};

// Accelerations that are found have the forces as torques, and no others do.
pub fn accelerations_laws_hold<R, M, F>()
    ensures { AbaIsRight R M F }
{}

// Torques are the mass matrix times the accelerations plus the torques of none; the matrix is its mirror image.
pub fn masses_laws_hold<R, M, F>()
    ensures { MassIsRight R M F × MassIsSymmetric R M F }
{}

// The refused joint is the highest whose branch matrix cannot give some torques.
pub fn refusal_laws_hold<R, M, F>()
    ensures { RefusalIsRight R M F }
{}

// The recursions commute with maps of ring and modules that keep what they are made of.
pub fn maps_hold<R, M, F, Q, N, G>()
    ensures { AllNatural R M F Q N G }
{}
