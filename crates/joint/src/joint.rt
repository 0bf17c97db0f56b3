// A joint at a position.
ghost use Rattle.std.specs.Prelude.{◌≡◌};
ghost use Rattle.motion.specs.Vectors.{motion, force};
ghost use Rattle.inertia.specs.Inertias.{inertia};
ghost use Rattle.joint.specs.Joints.{joint, joint_outward, joint_inward, joint_carried};

use crate::kind::JointKind;
use inertia::Inertia;
use motion::{Force, Motion};
use ring::Ring;
use spatial::Placement;

// The fixed placement comes first, then the joint's own.
#[derive(Clone, Copy)]
pub struct Joint<R> {
    pub kind: JointKind,
    pub fixed: Placement<R>,
    pub own: Placement<R>,
}

impl<R: Ring> Joint<R> {
    // X: a motion of the parent, in the joint's frame.
    pub fn outward(self, m: Motion<R>) -> Motion<R>
        ensures { motion R.Ring.value result ≡ joint_outward R.Ring.ring (joint R.Ring.value self) (motion R.Ring.value m) }
    {
        self.own.outward(self.fixed.outward(m))
    }

    // X': a force in the joint's frame, at the parent.
    pub fn inward(self, w: Force<R>) -> Force<R>
        ensures { force R.Ring.value result ≡ joint_inward R.Ring.ring (joint R.Ring.value self) (force R.Ring.value w) }
    {
        self.fixed.inward(self.own.inward(w))
    }

    // X' K X: an inertia in the joint's frame, at the parent.
    pub fn carried(self, k: Inertia<R>) -> Inertia<R>
        ensures { inertia R.Ring.value result ≡ joint_carried R.Ring.ring (joint R.Ring.value self) (inertia R.Ring.value k) }
    {
        k.carried(self.own).carried(self.fixed)
    }
}
