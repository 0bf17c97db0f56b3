// The joints of the arm: few of their numbers are zero or equal.
use refusal::Refusal;
use rig::Rig;
use ring::{Ring, whole};
use rotation::Quaternion;
use spatial::Link;
use symmetric::Symmetric3;
use triple::Triple;

// A joint by whole numbers: where it stands on its parent, how it is turned there, and its link.
#[derive(Clone, Copy)]
pub struct Body {
    pub offset: (i64, i64, i64),
    pub turn: (i64, i64, i64, i64),
    pub mass: i64,
    pub moment: (i64, i64, i64),
    // J by its rows from the diagonal on.
    pub inertia: (i64, i64, i64, i64, i64, i64),
}

pub const FIRST: Body = Body {
    offset: (1, 2, 3),
    turn: (1, 2, 3, 4),
    mass: 2,
    moment: (5, 10, 15),
    inertia: (1, 2, 3, 4, 5, 7),
};

// At its parent's origin, and not turned.
pub const PLAIN: Body = Body {
    offset: (0, 0, 0),
    turn: (1, 0, 0, 0),
    mass: 1,
    moment: (1, 0, 0),
    inertia: (1, 0, 0, 1, 0, 1),
};

pub const SECOND: Body = Body {
    offset: (3, 1, 2),
    turn: (2, 1, 0, 1),
    mass: 3,
    moment: (1, 4, 2),
    inertia: (2, 1, 1, 3, 2, 5),
};

pub const THIRD: Body = Body {
    offset: (2, 5, 1),
    turn: (1, 1, 2, 0),
    mass: 4,
    moment: (2, 1, 3),
    inertia: (3, 1, 2, 6, 1, 4),
};

pub fn add<R: Ring>(
    rig: &mut Rig<R>,
    parent: i64,
    letter: u8,
    body: Body,
) -> Result<usize, Refusal> {
    let (x, y, z) = body.offset;
    let (a, b, c, d) = body.turn;
    let (hx, hy, hz) = body.moment;
    let (xx, xy, xz, yy, yz, zz) = body.inertia;
    let link = Link {
        mass: whole(body.mass),
        first_moment: Triple::whole(hx, hy, hz),
        inertia: Symmetric3::whole(xx, xy, xz, yy, yz, zz),
    };
    let offset = Triple::whole(x, y, z);
    rig.add(parent, letter, offset, Quaternion::whole(a, b, c, d), link)
}
