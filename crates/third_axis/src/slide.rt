// A slide along the third axis, by its length.
ghost use Rattle.std.specs.Prelude.{◌≡◌};
ghost use Rattle.triple.specs.Ops.{ops};
ghost use Rattle.triple.specs.Triples.{triple};
ghost use Rattle.linear.specs.Matrices.{matrix};
ghost use Rattle.symmetric.specs.Symmetrics.{symmetric};
ghost use Rattle.motion.specs.Vectors.{motion, force};
ghost use Rattle.spatial.specs.Placements.{outward, inward, slid};
ghost use Rattle.inertia.specs.Inertias.{inertia, carried};
ghost use Rattle.third_axis.specs.Sparse.{moved3, slid_coupling, slid_angular};

use inertia::Inertia;
use linear::Matrix3;
use motion::{Force, Motion};
use ring::Ring;
use symmetric::Symmetric3;
use triple::Triple;

#[derive(Clone, Copy)]
pub struct Slide<R> {
    pub length: R,
}

impl<R: Ring> Slide<R> {
    // A motion, carried into the slid frame: 2 products.
    pub fn outward(self, m: Motion<R>) -> Motion<R>
        ensures { motion R.Ring.value result ≡ outward R.Ring.ring (slid R.Ring.ring (R.Ring.value self.length)) (motion R.Ring.value m) }
    {
        Motion {
            angular: m.angular,
            linear: self.moved(m.angular, m.linear),
        }
    }

    // A force, carried back out of the slid frame: 2 products.
    pub fn inward(self, w: Force<R>) -> Force<R>
        ensures { force R.Ring.value result ≡ inward R.Ring.ring (slid R.Ring.ring (R.Ring.value self.length)) (force R.Ring.value w) }
    {
        Force {
            moment: self.back().moved(w.linear, w.moment),
            linear: w.linear,
        }
    }

    // An inertia, carried back out of the slid frame: 10 products.
    pub fn carried(self, a: Inertia<R>) -> Inertia<R>
        ensures { inertia R.Ring.value result ≡ carried R.Ring.ring (slid R.Ring.ring (R.Ring.value self.length)) (inertia R.Ring.value a) }
    {
        let coupling = self.coupling(a.coupling, a.linear);
        Inertia {
            angular: self.angular(a.coupling, coupling, a.angular),
            coupling,
            linear: a.linear,
        }
    }

    // The opposite slide.
    fn back(self) -> Slide<R>
        ensures { R.Ring.value result.length ≡ R.Ring.ring.neg (R.Ring.value self.length) }
    {
        Slide {
            length: self.length.neg(),
        }
    }

    // a - (0, 0, q) × b, where q is the length.
    fn moved(self, b: Triple<R>, a: Triple<R>) -> Triple<R>
        ensures { triple R.Ring.value result ≡ moved3 (ops R.Ring.ring) (R.Ring.value self.length) (triple R.Ring.value b) (triple R.Ring.value a) }
    {
        let q = self.length;
        Triple {
            x: q.mul_add(b.y, a.x),
            y: a.y.sub(q.mul(b.x)),
            z: a.z,
        }
    }

    // c + (0, 0, q) × each column of l: 5 products.
    fn coupling(self, c: Matrix3<R>, l: Symmetric3<R>) -> Matrix3<R>
        ensures { matrix R.Ring.value result ≡ slid_coupling (ops R.Ring.ring) (R.Ring.value self.length) (matrix R.Ring.value c) (symmetric R.Ring.value l) }
    {
        let q = self.length;
        let t = q.mul(l.xy);
        Matrix3 {
            x: Triple {
                x: c.x.x.sub(t),
                y: c.x.y.sub(q.mul(l.yy)),
                z: c.x.z.sub(q.mul(l.yz)),
            },
            y: Triple {
                x: q.mul_add(l.xx, c.y.x),
                y: c.y.y.add(t),
                z: q.mul_add(l.xz, c.y.z),
            },
            z: c.z,
        }
    }

    // The block of moments, from the couplings before and after: 5 products.
    fn angular(self, c: Matrix3<R>, d: Matrix3<R>, s: Symmetric3<R>) -> Symmetric3<R>
        ensures { symmetric R.Ring.value result ≡ slid_angular (ops R.Ring.ring) (R.Ring.value self.length) (matrix R.Ring.value c) (matrix R.Ring.value d) (symmetric R.Ring.value s) }
    {
        let q = self.length;
        let Matrix3 { x: cx, y: cy, .. } = c;
        let Matrix3 {
            x: dx,
            y: dy,
            z: dz,
        } = d;
        Symmetric3 {
            xx: s.xx.sub(q.mul(cx.y.add(dx.y))),
            xy: q.mul_add(cx.x.sub(dy.y), s.xy),
            xz: s.xz.sub(q.mul(dz.y)),
            yy: q.mul_add(cy.x.add(dy.x), s.yy),
            yz: q.mul_add(dz.x, s.yz),
            zz: s.zz,
        }
    }
}
