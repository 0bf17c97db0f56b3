// A symmetric map from motions to forces, by three blocks.
ghost use Rattle.std.specs.Prelude.{◌≡◌};
ghost use Rattle.triple.specs.Triples.{triple};
ghost use Rattle.linear.specs.Matrices.{matrix};
ghost use Rattle.motion.specs.Vectors.{motion, force};
ghost use Rattle.spatial.specs.Placements.{placement};
ghost use Rattle.spatial.specs.Links.{link};
ghost use Rattle.inertia.specs.Inertias.{inertia, applied, of_link, inertia_add, turned_inertia, shifted_inertia, carried, inertia_minus_outer};

use linear::Matrix3;
use motion::{Force, Motion};
use ring::Ring;
use spatial::{Link, Placement};
use std::ops::Add;
use symmetric::{Symmetric3, leaned};
use triple::Triple;

// K(ω; v) = (angular ω + coupling v; coupling' ω + linear v).
#[derive(Clone, Copy)]
pub struct Inertia<R> {
    pub angular: Symmetric3<R>,
    pub coupling: Matrix3<R>,
    pub linear: Symmetric3<R>,
}

impl<R: Ring> Add<Inertia<R>> for Inertia<R> {
    type Output = Inertia<R>;

    ghost add_gives = { λ a b r. inertia R.Ring.value r ≡ inertia_add R.Ring.ring (inertia R.Ring.value a) (inertia R.Ring.value b) };

    fn add(self, other: Inertia<R>) -> Inertia<R> {
        Inertia {
            angular: self.angular + other.angular,
            coupling: self.coupling + other.coupling,
            linear: self.linear + other.linear,
        }
    }
}

impl<R: Ring> From<Link<R>> for Inertia<R> {
    ghost from_gives = { λ body r. inertia R.Ring.value r ≡ of_link R.Ring.ring (link R.Ring.value body) };

    fn from(body: Link<R>) -> Inertia<R> {
        let Link {
            mass,
            first_moment: h,
            inertia,
        } = body;
        let o = R::zero();
        Inertia {
            angular: inertia,
            coupling: Matrix3 {
                x: Triple {
                    x: o,
                    y: h.z.neg(),
                    z: h.y,
                },
                y: Triple {
                    x: h.z,
                    y: o,
                    z: h.x.neg(),
                },
                z: Triple {
                    x: h.y.neg(),
                    y: h.x,
                    z: o,
                },
            },
            linear: Symmetric3 {
                xx: mass,
                xy: o,
                xz: o,
                yy: mass,
                yz: o,
                zz: mass,
            },
        }
    }
}

impl<R: Ring> Inertia<R> {
    // 36 products.
    pub fn apply(self, m: Motion<R>) -> Force<R>
        ensures { force R.Ring.value result ≡ applied R.Ring.ring (inertia R.Ring.value self) (motion R.Ring.value m) }
    {
        Force {
            moment: self.angular.apply(m.angular) + self.coupling.apply(m.linear),
            linear: self.coupling.transpose().apply(m.angular) + self.linear.apply(m.linear),
        }
    }

    // 144 products.
    fn turned(self, e: Matrix3<R>) -> Inertia<R>
        ensures { inertia R.Ring.value result ≡ turned_inertia R.Ring.ring (matrix R.Ring.value e) (inertia R.Ring.value self) }
    {
        Inertia {
            angular: self.angular.conjugate(e),
            coupling: self.coupling.conjugate(e),
            linear: self.linear.conjugate(e),
        }
    }

    // 54 products.
    fn shifted(self, r: Triple<R>) -> Inertia<R>
        ensures { inertia R.Ring.value result ≡ shifted_inertia R.Ring.ring (triple R.Ring.value r) (inertia R.Ring.value self) }
    {
        let d = self.coupling + Matrix3::from(self.linear).cross_columns(r);
        Inertia {
            angular: leaned(r, self.coupling, d, self.angular),
            coupling: d,
            linear: self.linear,
        }
    }

    // X' K X: the inertia one placement in.
    pub fn carried(self, p: Placement<R>) -> Inertia<R>
        ensures { inertia R.Ring.value result ≡ carried R.Ring.ring (placement R.Ring.value p) (inertia R.Ring.value self) }
    {
        self.turned(p.rotation).shifted(p.offset)
    }

    // K - d U U': 27 products.
    pub fn minus_outer(self, d: R, u: Force<R>) -> Inertia<R>
        ensures { inertia R.Ring.value result ≡ inertia_minus_outer R.Ring.ring (R.Ring.value d) (force R.Ring.value u) (inertia R.Ring.value self) }
    {
        let n = u.moment.scale(d);
        let f = u.linear.scale(d);
        Inertia {
            angular: self.angular.minus_outer(n, u.moment),
            coupling: self.coupling.minus_outer(n, u.linear),
            linear: self.linear.minus_outer(f, u.linear),
        }
    }
}
