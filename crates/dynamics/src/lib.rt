// The three recursions over what a rig holds, and their laws.
#![tactic(auto)]

ghost use Rattle.ring.specs.RingMap.{RingMap};
ghost use Rattle.dynamics.specs.Laws.{DynamicsLaws, DynamicsMap};

use ring::Ring;

// The laws of the three recursions hold over every ring.
pub fn laws_hold<R: Ring>()
    ensures { DynamicsLaws R.Ring.ring }
{}

// The recursions commute with every ring map, refusals included.
pub fn maps_hold<R: Ring, Q: Ring>()
    ensures { (φ : R.Ring.Num → Q.Ring.Num) → RingMap R.Ring.ring Q.Ring.ring φ → DynamicsMap R.Ring.ring Q.Ring.ring φ }
{}
