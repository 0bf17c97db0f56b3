// Triples of ring numbers.
ghost use Rattle.std.specs.Prelude.{◌≡◌};
ghost use Rattle.triple.specs.Ops.{ops};
ghost use Rattle.triple.specs.Triples.{triple, zero3, whole3, third3, add3, neg3, sub3, scale3, dot3, cross3};

use ring::{Ring, whole};
use std::ops::{Add, Neg, Sub};

#[derive(Clone, Copy)]
pub struct Triple<R> {
    pub x: R,
    pub y: R,
    pub z: R,
}

impl<R: Ring> Add<Triple<R>> for Triple<R> {
    type Output = Triple<R>;

    ghost add_gives = { λ a b r. triple R.Ring.value r ≡ add3 (ops R.Ring.ring) (triple R.Ring.value a) (triple R.Ring.value b) };

    fn add(self, other: Triple<R>) -> Triple<R> {
        Triple {
            x: self.x.add(other.x),
            y: self.y.add(other.y),
            z: self.z.add(other.z),
        }
    }
}

impl<R: Ring> Sub<Triple<R>> for Triple<R> {
    type Output = Triple<R>;

    ghost sub_gives = { λ a b r. triple R.Ring.value r ≡ sub3 (ops R.Ring.ring) (triple R.Ring.value a) (triple R.Ring.value b) };

    fn sub(self, other: Triple<R>) -> Triple<R> {
        Triple {
            x: self.x.sub(other.x),
            y: self.y.sub(other.y),
            z: self.z.sub(other.z),
        }
    }
}

impl<R: Ring> Neg for Triple<R> {
    type Output = Triple<R>;

    ghost neg_gives = { λ a r. triple R.Ring.value r ≡ neg3 (ops R.Ring.ring) (triple R.Ring.value a) };

    fn neg(self) -> Triple<R> {
        Triple {
            x: self.x.neg(),
            y: self.y.neg(),
            z: self.z.neg(),
        }
    }
}

impl<R: Ring> Triple<R> {
    pub fn zero() -> Triple<R>
        ensures { triple R.Ring.value result ≡ zero3 (ops R.Ring.ring) }
    {
        let zero = R::zero();
        Triple {
            x: zero,
            y: zero,
            z: zero,
        }
    }

    // Three whole numbers, as they enter the ring.
    pub fn whole(x: i64, y: i64, z: i64) -> Triple<R>
        ensures { triple R.Ring.value result ≡ whole3 R.Ring.ring x y z }
    {
        Triple {
            x: whole(x),
            y: whole(y),
            z: whole(z),
        }
    }

    // (0, 0, 1)
    pub fn third_axis() -> Triple<R>
        ensures { triple R.Ring.value result ≡ third3 (ops R.Ring.ring) }
    {
        Triple {
            x: R::zero(),
            y: R::zero(),
            z: R::one(),
        }
    }

    pub fn scale(self, by: R) -> Triple<R>
        ensures { triple R.Ring.value result ≡ scale3 (ops R.Ring.ring) (R.Ring.value by) (triple R.Ring.value self) }
    {
        Triple {
            x: by.mul(self.x),
            y: by.mul(self.y),
            z: by.mul(self.z),
        }
    }

    pub fn dot(self, other: Triple<R>) -> R
        ensures { R.Ring.value result ≡ dot3 (ops R.Ring.ring) (triple R.Ring.value self) (triple R.Ring.value other) }
    {
        self.x
            .mul_add(other.x, self.y.mul_add(other.y, self.z.mul(other.z)))
    }

    pub fn cross(self, other: Triple<R>) -> Triple<R>
        ensures { triple R.Ring.value result ≡ cross3 (ops R.Ring.ring) (triple R.Ring.value self) (triple R.Ring.value other) }
    {
        Triple {
            x: self.y.mul(other.z).sub(self.z.mul(other.y)),
            y: self.z.mul(other.x).sub(self.x.mul(other.z)),
            z: self.x.mul(other.y).sub(self.y.mul(other.x)),
        }
    }
}
