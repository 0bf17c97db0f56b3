// A joint in its pose.
ghost use Rattle.std.specs.Prelude.{◌≡◌};
ghost use Rattle.motion.specs.Vectors.{motion, force, motion_scale, pairing};
ghost use Rattle.spatial.specs.Placements.{outward, inward};
ghost use Rattle.inertia.specs.Inertias.{inertia, applied, carried};
ghost use Rattle.joint.specs.Joints.{axis, joint_outward, joint_inward, joint_carried};
ghost use Rattle.pose.specs.Poses.{pose, posed, moves, own_pose, placed_so};

use inertia::Inertia;
use motion::{Force, Motion};
use ring::Ring;
use spatial::Placement;
use third_axis::{Slide, Turn};
use triple::Triple;

// A joint's own placement: a revolute joint turns, a prismatic one slides.
#[derive(Clone, Copy)]
pub enum Own<R> {
    Turn(Turn<R>),
    Slide(Slide<R>),
}

// The fixed placement comes first, then the joint's own.
#[derive(Clone, Copy)]
pub struct Pose<R> {
    pub fixed: Placement<R>,
    pub own: Own<R>,
}

impl<R: Ring> Own<R> {
    fn outward(self, m: Motion<R>) -> Motion<R>
        ensures { motion R.Ring.value result ≡ outward R.Ring.ring (placed_so R.Ring.ring (own_pose R.Ring.value self)) (motion R.Ring.value m) }
    {
        match self {
            Own::Turn(turn) => turn.outward(m),
            Own::Slide(slide) => slide.outward(m),
        }
    }

    fn inward(self, w: Force<R>) -> Force<R>
        ensures { force R.Ring.value result ≡ inward R.Ring.ring (placed_so R.Ring.ring (own_pose R.Ring.value self)) (force R.Ring.value w) }
    {
        match self {
            Own::Turn(turn) => turn.inward(w),
            Own::Slide(slide) => slide.inward(w),
        }
    }

    fn carried(self, a: Inertia<R>) -> Inertia<R>
        ensures { inertia R.Ring.value result ≡ carried R.Ring.ring (placed_so R.Ring.ring (own_pose R.Ring.value self)) (inertia R.Ring.value a) }
    {
        match self {
            Own::Turn(turn) => turn.carried(a),
            Own::Slide(slide) => slide.carried(a),
        }
    }
}

impl<R: Ring> Pose<R> {
    // X: a motion of the parent, in the joint's frame. 32 products, or 26 where the joint slides.
    pub fn outward(self, m: Motion<R>) -> Motion<R>
        ensures { motion R.Ring.value result ≡ joint_outward R.Ring.ring (posed R.Ring.ring (pose R.Ring.value self)) (motion R.Ring.value m) }
    {
        self.own.outward(self.fixed.outward(m))
    }

    // X': a force in the joint's frame, at the parent. 32 products, or 26 where the joint slides.
    pub fn inward(self, w: Force<R>) -> Force<R>
        ensures { force R.Ring.value result ≡ joint_inward R.Ring.ring (posed R.Ring.ring (pose R.Ring.value self)) (force R.Ring.value w) }
    {
        self.fixed.inward(self.own.inward(w))
    }

    // X' K X: an inertia in the joint's frame, at the parent. 239 products, or 208 where the joint slides.
    pub fn carried(self, a: Inertia<R>) -> Inertia<R>
        ensures { inertia R.Ring.value result ≡ joint_carried R.Ring.ring (posed R.Ring.ring (pose R.Ring.value self)) (inertia R.Ring.value a) }
    {
        self.own.carried(a).carried(self.fixed)
    }

    // The motion of the joint at the rate `x`: no product.
    pub fn along(self, x: R) -> Motion<R>
        ensures { motion R.Ring.value result ≡ motion_scale R.Ring.ring (R.Ring.value x) (axis R.Ring.ring (moves self.own)) }
    {
        let o = R::zero();
        let still = Triple { x: o, y: o, z: o };
        let moving = Triple { x: o, y: o, z: x };
        match self.own {
            Own::Turn(_) => Motion {
                angular: moving,
                linear: still,
            },
            Own::Slide(_) => Motion {
                angular: still,
                linear: moving,
            },
        }
    }

    // A force's part along the joint's axis, a torque or a push as the kind is: no product.
    pub fn component(self, w: Force<R>) -> R
        ensures { R.Ring.value result ≡ pairing R.Ring.ring (axis R.Ring.ring (moves self.own)) (force R.Ring.value w) }
    {
        match self.own {
            Own::Turn(_) => w.moment.z,
            Own::Slide(_) => w.linear.z,
        }
    }

    // What an inertia gives at the joint's axis, a column of its blocks: no product.
    pub fn column(self, a: Inertia<R>) -> Force<R>
        ensures { force R.Ring.value result ≡ applied R.Ring.ring (inertia R.Ring.value a) (axis R.Ring.ring (moves self.own)) }
    {
        match self.own {
            Own::Turn(_) => Force {
                moment: Triple {
                    x: a.angular.xz,
                    y: a.angular.yz,
                    z: a.angular.zz,
                },
                linear: a.coupling.z,
            },
            Own::Slide(_) => Force {
                moment: Triple {
                    x: a.coupling.x.z,
                    y: a.coupling.y.z,
                    z: a.coupling.z.z,
                },
                linear: Triple {
                    x: a.linear.xz,
                    y: a.linear.yz,
                    z: a.linear.zz,
                },
            },
        }
    }
}
