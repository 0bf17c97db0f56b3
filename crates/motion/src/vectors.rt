// Motions (ω; v) and forces (n; f) of a rigid body.
ghost use Rattle.std.specs.Prelude.{◌≡◌};
ghost use Rattle.motion.specs.Vectors.{motion, force, motion_zero, unit_turn, unit_slide, motion_add, motion_scale, force_zero, force_add, force_scale, pairing, motion_cross, force_cross};

use ring::Ring;
use std::ops::Add;
use triple::Triple;

// Dual to forces: two types, so that the one is not taken for the other, nor an angular part for a moment.
#[derive(Clone, Copy)]
pub struct Motion<R> {
    pub angular: Triple<R>,
    pub linear: Triple<R>,
}

#[derive(Clone, Copy)]
pub struct Force<R> {
    pub moment: Triple<R>,
    pub linear: Triple<R>,
}

impl<R: Ring> Add<Motion<R>> for Motion<R> {
    type Output = Motion<R>;

    ghost add_gives = { λ a b r. motion R.Ring.value r ≡ motion_add R.Ring.ring (motion R.Ring.value a) (motion R.Ring.value b) };

    fn add(self, other: Motion<R>) -> Motion<R> {
        Motion {
            angular: self.angular + other.angular,
            linear: self.linear + other.linear,
        }
    }
}

impl<R: Ring> Add<Force<R>> for Force<R> {
    type Output = Force<R>;

    ghost add_gives = { λ a b r. force R.Ring.value r ≡ force_add R.Ring.ring (force R.Ring.value a) (force R.Ring.value b) };

    fn add(self, other: Force<R>) -> Force<R> {
        Force {
            moment: self.moment + other.moment,
            linear: self.linear + other.linear,
        }
    }
}

impl<R: Ring> Motion<R> {
    pub fn zero() -> Motion<R>
        ensures { motion R.Ring.value result ≡ motion_zero R.Ring.ring }
    {
        let zero = Triple::zero();
        Motion {
            angular: zero,
            linear: zero,
        }
    }

    // A unit turn about the third axis.
    pub fn unit_turn() -> Motion<R>
        ensures { motion R.Ring.value result ≡ unit_turn R.Ring.ring }
    {
        Motion {
            angular: Triple::third_axis(),
            linear: Triple::zero(),
        }
    }

    // A unit slide along the third axis.
    pub fn unit_slide() -> Motion<R>
        ensures { motion R.Ring.value result ≡ unit_slide R.Ring.ring }
    {
        Motion {
            angular: Triple::zero(),
            linear: Triple::third_axis(),
        }
    }

    pub fn scale(self, by: R) -> Motion<R>
        ensures { motion R.Ring.value result ≡ motion_scale R.Ring.ring (R.Ring.value by) (motion R.Ring.value self) }
    {
        Motion {
            angular: self.angular.scale(by),
            linear: self.linear.scale(by),
        }
    }

    // The pairing with a force: its power, or its torque about an axis.
    pub fn dot(self, other: Force<R>) -> R
        ensures { R.Ring.value result ≡ pairing R.Ring.ring (motion R.Ring.value self) (force R.Ring.value other) }
    {
        self.angular
            .dot(other.moment)
            .add(self.linear.dot(other.linear))
    }

    pub fn cross(self, other: Motion<R>) -> Motion<R>
        ensures { motion R.Ring.value result ≡ motion_cross R.Ring.ring (motion R.Ring.value self) (motion R.Ring.value other) }
    {
        Motion {
            angular: self.angular.cross(other.angular),
            linear: self.angular.cross(other.linear) + self.linear.cross(other.angular),
        }
    }

    pub fn cross_force(self, other: Force<R>) -> Force<R>
        ensures { force R.Ring.value result ≡ force_cross R.Ring.ring (motion R.Ring.value self) (force R.Ring.value other) }
    {
        Force {
            moment: self.angular.cross(other.moment) + self.linear.cross(other.linear),
            linear: self.angular.cross(other.linear),
        }
    }
}

impl<R: Ring> Force<R> {
    pub fn zero() -> Force<R>
        ensures { force R.Ring.value result ≡ force_zero R.Ring.ring }
    {
        Force {
            moment: Triple::zero(),
            linear: Triple::zero(),
        }
    }

    pub fn scale(self, by: R) -> Force<R>
        ensures { force R.Ring.value result ≡ force_scale R.Ring.ring (R.Ring.value by) (force R.Ring.value self) }
    {
        Force {
            moment: self.moment.scale(by),
            linear: self.linear.scale(by),
        }
    }
}
