// A turn about the third axis, by its cosine and its sine.
ghost use Rattle.std.specs.Prelude.{◌≡◌};
ghost use Rattle.triple.specs.Ops.{ops};
ghost use Rattle.triple.specs.Triples.{triple};
ghost use Rattle.linear.specs.Matrices.{matrix};
ghost use Rattle.symmetric.specs.Symmetrics.{symmetric};
ghost use Rattle.motion.specs.Vectors.{motion, force};
ghost use Rattle.spatial.specs.Placements.{outward, inward};
ghost use Rattle.inertia.specs.Inertias.{inertia, carried};
ghost use Rattle.third_axis.specs.Turns.{rotated};
ghost use Rattle.third_axis.specs.Sparse.{turned3, turned_symmetric, turned_matrix};

use inertia::Inertia;
use linear::Matrix3;
use motion::{Force, Motion};
use ring::Ring;
use symmetric::Symmetric3;
use triple::Triple;

// Neither number need be a cosine or a sine of anything: each law below holds for any two.
#[derive(Clone, Copy)]
pub struct Turn<R> {
    pub cosine: R,
    pub sine: R,
}

impl<R: Ring> Turn<R> {
    // A motion, carried into the turned frame: 8 products.
    pub fn outward(self, m: Motion<R>) -> Motion<R>
        ensures { motion R.Ring.value result ≡ outward R.Ring.ring (rotated R.Ring.ring (R.Ring.value self.cosine) (R.Ring.value self.sine)) (motion R.Ring.value m) }
    {
        Motion {
            angular: self.apply(m.angular),
            linear: self.apply(m.linear),
        }
    }

    // A force, carried back out of the turned frame: 8 products.
    pub fn inward(self, w: Force<R>) -> Force<R>
        ensures { force R.Ring.value result ≡ inward R.Ring.ring (rotated R.Ring.ring (R.Ring.value self.cosine) (R.Ring.value self.sine)) (force R.Ring.value w) }
    {
        let back = self.back();
        Force {
            moment: back.apply(w.moment),
            linear: back.apply(w.linear),
        }
    }

    // An inertia, carried back out of the turned frame: 41 products.
    pub fn carried(self, a: Inertia<R>) -> Inertia<R>
        ensures { inertia R.Ring.value result ≡ carried R.Ring.ring (rotated R.Ring.ring (R.Ring.value self.cosine) (R.Ring.value self.sine)) (inertia R.Ring.value a) }
    {
        let back = self.back();
        let square = self.cosine.mul(self.cosine);
        let mixed = self.cosine.mul(back.sine);
        let norm = back.sine.mul_add(back.sine, square);
        let shared = Shared {
            back,
            square,
            mixed,
            norm,
        };
        Inertia {
            angular: shared.symmetric(a.angular),
            coupling: shared.matrix(a.coupling),
            linear: shared.symmetric(a.linear),
        }
    }

    // The opposite turn.
    fn back(self) -> Turn<R>
        ensures cosine { result.cosine ≡ self.cosine }
        ensures sine { R.Ring.value result.sine ≡ R.Ring.ring.neg (R.Ring.value self.sine) }
    {
        Turn {
            cosine: self.cosine,
            sine: self.sine.neg(),
        }
    }

    // (c x + s y, c y - s x, z)
    fn apply(self, a: Triple<R>) -> Triple<R>
        ensures { triple R.Ring.value result ≡ turned3 (ops R.Ring.ring) (R.Ring.value self.cosine) (R.Ring.value self.sine) (triple R.Ring.value a) }
    {
        Triple {
            x: self.cosine.mul_add(a.x, self.sine.mul(a.y)),
            y: self.cosine.mul(a.y).sub(self.sine.mul(a.x)),
            z: a.z,
        }
    }
}

// What the three blocks of an inertia share as it is carried back: the opposite turn (c, -s), and the
// products c c, c (-s) and c c + s s, which need not be one.
#[derive(Clone, Copy)]
struct Shared<R> {
    back: Turn<R>,
    square: R,
    mixed: R,
    norm: R,
}

impl<R: Ring> Shared<R> {
    // E' S E: 11 products. Here and below, the four entries in the plane of the turn are norm yy + u,
    // w - norm yx, w - norm xy and norm xx - u, so that they share u and w.
    fn symmetric(self, a: Symmetric3<R>) -> Symmetric3<R>
        ensures { symmetric R.Ring.value result ≡ turned_symmetric (ops R.Ring.ring) (R.Ring.value self.back.cosine) (R.Ring.value self.back.sine) (R.Ring.value self.square) (R.Ring.value self.mixed) (R.Ring.value self.norm) (symmetric R.Ring.value a) }
    {
        let d = a.xx.sub(a.yy);
        let m = a.xy.add(a.xy);
        let u = self.square.mul_add(d, self.mixed.mul(m));
        let w = self.square.mul(m).sub(self.mixed.mul(d));
        let third = self.back.apply(Triple {
            x: a.xz,
            y: a.yz,
            z: a.zz,
        });
        Symmetric3 {
            xx: self.norm.mul_add(a.yy, u),
            xy: w.sub(self.norm.mul(a.xy)),
            xz: third.x,
            yy: self.norm.mul(a.xx).sub(u),
            yz: third.y,
            zz: third.z,
        }
    }

    // E' C E: 16 products.
    fn matrix(self, a: Matrix3<R>) -> Matrix3<R>
        ensures { matrix R.Ring.value result ≡ turned_matrix (ops R.Ring.ring) (R.Ring.value self.back.cosine) (R.Ring.value self.back.sine) (R.Ring.value self.square) (R.Ring.value self.mixed) (R.Ring.value self.norm) (matrix R.Ring.value a) }
    {
        let Matrix3 { x, y, z } = a;
        let d = x.x.sub(y.y);
        let m = x.y.add(y.x);
        let u = self.square.mul_add(d, self.mixed.mul(m));
        let w = self.square.mul(m).sub(self.mixed.mul(d));
        let third = self.back.apply(Triple {
            x: x.z,
            y: y.z,
            z: z.z,
        });
        Matrix3 {
            x: Triple {
                x: self.norm.mul_add(y.y, u),
                y: w.sub(self.norm.mul(y.x)),
                z: third.x,
            },
            y: Triple {
                x: w.sub(self.norm.mul(x.y)),
                y: self.norm.mul(x.x).sub(u),
                z: third.y,
            },
            z: self.back.apply(z),
        }
    }
}
