// The laws of motions, forces, placements, inertias and joints.
#![tactic(auto)]

ghost use Rattle.ring.specs.RingMap.{RingMap};
ghost use Rattle.spatial_laws.specs.SpatialLaws.{SpatialLaws};
ghost use Rattle.spatial_laws.specs.SpatialMaps.{SpatialMap};

use ring::Ring;

// What links the operations to each other holds over every ring.
pub fn laws_hold<R: Ring>()
    ensures { SpatialLaws R.Ring.ring }
{}

// Each operation commutes with every ring map, refusals included.
pub fn maps_hold<R: Ring, Q: Ring>()
    ensures { (φ : R.Ring.Num → Q.Ring.Num) → RingMap R.Ring.ring Q.Ring.ring φ → SpatialMap R.Ring.ring Q.Ring.ring φ }
{}
