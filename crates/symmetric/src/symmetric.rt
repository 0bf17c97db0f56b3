// Symmetric matrices of three rows, which store each entry once.
ghost use Rattle.std.specs.Prelude.{◌≡◌};
ghost use Rattle.triple.specs.Ops.{ops};
ghost use Rattle.triple.specs.Triples.{triple};
ghost use Rattle.linear.specs.Matrices.{matrix, times};
ghost use Rattle.symmetric.specs.Symmetrics.{symmetric, whole6, full, symmetric_add, symmetric_conjugate, symmetric_minus_outer, leaned};

use linear::Matrix3;
use ring::{Ring, whole};
use std::ops::Add;
use triple::Triple;

#[derive(Clone, Copy)]
pub struct Symmetric3<R> {
    pub xx: R,
    pub xy: R,
    pub xz: R,
    pub yy: R,
    pub yz: R,
    pub zz: R,
}

impl<R: Ring> Add<Symmetric3<R>> for Symmetric3<R> {
    type Output = Symmetric3<R>;

    ghost add_gives = { λ a b r. symmetric R.Ring.value r ≡ symmetric_add (ops R.Ring.ring) (symmetric R.Ring.value a) (symmetric R.Ring.value b) };

    fn add(self, other: Symmetric3<R>) -> Symmetric3<R> {
        Symmetric3 {
            xx: self.xx.add(other.xx),
            xy: self.xy.add(other.xy),
            xz: self.xz.add(other.xz),
            yy: self.yy.add(other.yy),
            yz: self.yz.add(other.yz),
            zz: self.zz.add(other.zz),
        }
    }
}

// All nine entries.
impl<R: Ring> From<Symmetric3<R>> for Matrix3<R> {
    ghost from_gives = { λ s r. matrix R.Ring.value r ≡ full (symmetric R.Ring.value s) };

    fn from(s: Symmetric3<R>) -> Matrix3<R> {
        Matrix3 {
            x: Triple {
                x: s.xx,
                y: s.xy,
                z: s.xz,
            },
            y: Triple {
                x: s.xy,
                y: s.yy,
                z: s.yz,
            },
            z: Triple {
                x: s.xz,
                y: s.yz,
                z: s.zz,
            },
        }
    }
}

impl<R: Ring> Symmetric3<R> {
    // Six whole numbers, as they enter the ring.
    pub fn whole(xx: i64, xy: i64, xz: i64, yy: i64, yz: i64, zz: i64) -> Symmetric3<R>
        ensures { symmetric R.Ring.value result ≡ whole6 R.Ring.ring xx xy xz yy yz zz }
    {
        Symmetric3 {
            xx: whole(xx),
            xy: whole(xy),
            xz: whole(xz),
            yy: whole(yy),
            yz: whole(yz),
            zz: whole(zz),
        }
    }

    // 9 products.
    pub fn apply(self, a: Triple<R>) -> Triple<R>
        ensures { triple R.Ring.value result ≡ times (ops R.Ring.ring) (full (symmetric R.Ring.value self)) (triple R.Ring.value a) }
    {
        Matrix3::from(self).apply(a)
    }

    // E' S E, where this is S: 45 products.
    pub fn conjugate(self, e: Matrix3<R>) -> Symmetric3<R>
        ensures { symmetric R.Ring.value result ≡ symmetric_conjugate (ops R.Ring.ring) (matrix R.Ring.value e) (symmetric R.Ring.value self) }
    {
        let f = e.transpose();
        let gx = self.apply(f.x);
        let gy = self.apply(f.y);
        let gz = self.apply(f.z);
        Symmetric3 {
            xx: f.x.dot(gx),
            xy: f.x.dot(gy),
            xz: f.x.dot(gz),
            yy: f.y.dot(gy),
            yz: f.y.dot(gz),
            zz: f.z.dot(gz),
        }
    }

    // Less a b', where that is symmetric: 6 products.
    pub fn minus_outer(self, a: Triple<R>, b: Triple<R>) -> Symmetric3<R>
        ensures { symmetric R.Ring.value result ≡ symmetric_minus_outer (ops R.Ring.ring) (triple R.Ring.value a) (triple R.Ring.value b) (symmetric R.Ring.value self) }
    {
        Symmetric3 {
            xx: self.xx.sub(a.x.mul(b.x)),
            xy: self.xy.sub(a.x.mul(b.y)),
            xz: self.xz.sub(a.x.mul(b.z)),
            yy: self.yy.sub(a.y.mul(b.y)),
            yz: self.yz.sub(a.y.mul(b.z)),
            zz: self.zz.sub(a.z.mul(b.z)),
        }
    }
}

// s - c r× + r× d', which is symmetric: 36 products.
pub fn leaned<R: Ring>(
    r: Triple<R>,
    c: Matrix3<R>,
    d: Matrix3<R>,
    s: Symmetric3<R>,
) -> Symmetric3<R>
    ensures { symmetric R.Ring.value result ≡ leaned (ops R.Ring.ring) (triple R.Ring.value r) (matrix R.Ring.value c) (matrix R.Ring.value d) (symmetric R.Ring.value s) }
{
    let cx = r.cross(c.x);
    let cy = r.cross(c.y);
    let cz = r.cross(c.z);
    let dx = r.cross(d.x);
    let dy = r.cross(d.y);
    let dz = r.cross(d.z);
    let below = Symmetric3 {
        xx: cx.x,
        xy: cx.y,
        xz: cx.z,
        yy: cy.y,
        yz: cy.z,
        zz: cz.z,
    };
    let above = Symmetric3 {
        xx: dx.x,
        xy: dy.x,
        xz: dz.x,
        yy: dy.y,
        yz: dz.y,
        zz: dz.z,
    };
    s + below + above
}
