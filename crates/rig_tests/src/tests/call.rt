// Calls as data, so that a table of them is an example.
use refusal::Refusal;
use rig::{Rig, Slot, Work};
use ring::{Ring, whole};
use rotation::Quaternion;
use spatial::Link;
use std::iter::repeat;
use std::process::Abort;
use symmetric::Symmetric3;
use triple::Triple;

// A joint at its parent's origin, turned by four numbers, with a mass, a first moment along x and a diagonal inertia.
#[derive(Clone, Copy)]
pub struct Body {
    pub letter: u8,
    pub turn: (i64, i64, i64, i64),
    pub mass: i64,
    pub moment: i64,
    pub inertia: i64,
}

// What changes a rig.
#[derive(Clone, Copy)]
pub enum Call {
    Add(i64, Body),
    Gravity(i64),
    Position(i64, i64),
    Rate(i64, i64),
    Acceleration(i64, i64),
    Force(i64, i64),
}

#[derive(Clone, Copy)]
pub enum Show {
    Torques,
    Matrix,
}

// The lists that are lent to a rig and to a show of it.
pub struct Lent<'a, R> {
    pub slots: &'a mut [Slot<R>],
    pub shown: &'a mut [R],
    pub work: &'a mut [Work<R>],
}

fn add<R: Ring>(rig: &mut Rig<R>, parent: i64, body: Body) -> Result<usize, Refusal> {
    let (a, b, c, d) = body.turn;
    let turn = Quaternion::whole(a, b, c, d);
    let j = body.inertia;
    let link = Link {
        mass: whole(body.mass),
        first_moment: Triple::whole(body.moment, 0, 0),
        inertia: Symmetric3::whole(0, 0, 0, j, 0, j),
    };
    rig.add(parent, body.letter, Triple::whole(0, 0, 0), turn, link)
}

// A call that answers nothing answers 0 here.
fn make<R: Ring>(rig: &mut Rig<R>, call: Call) -> Result<usize, Refusal> {
    let done = match call {
        Call::Add(parent, body) => return add(rig, parent, body),
        Call::Gravity(y) => rig.set_gravity(Triple::whole(0, y, 0)),
        Call::Position(joint, x) => rig.set_position(joint, whole(x)),
        Call::Rate(joint, x) => rig.set_rate(joint, whole(x)),
        Call::Acceleration(joint, x) => rig.set_acceleration(joint, whole(x)),
        Call::Force(joint, x) => rig.set_force(joint, whole(x)),
    };
    done.map(|()| 0)
}

// Each call of the table on the rig answers as the table says.
pub fn check_calls_on<R: Ring>(
    rt: &impl Abort,
    rig: &mut Rig<R>,
    table: &[(Call, Result<usize, Refusal>)],
) {
    for (call, expected) in table {
        assert_eq!(rt; make(rig, *call), *expected);
    }
}

// The same on a new rig.
pub fn check_calls<R: Ring>(
    rt: &impl Abort,
    slots: &mut [Slot<R>],
    table: &[(Call, Result<usize, Refusal>)],
) {
    let mut rig = Rig::new(slots);
    check_calls_on(rt, &mut rig, table);
}

// How many of 26 joints, each on the one before, find a place.
pub fn joints_on<R: Ring>(slots: &mut [Slot<R>], body: Body) -> usize {
    let mut rig = Rig::new(slots);
    for parent in 0..26 {
        let _ = add(&mut rig, parent, body);
    }
    rig.joints()
}

pub fn show_into<R: Ring>(
    rig: &Rig<R>,
    show: Show,
    shown: &mut [R],
    work: &mut [Work<R>],
) -> Result<(), Refusal> {
    match show {
        Show::Torques => rig.show_torques(shown, work),
        Show::Matrix => rig.show_matrix(shown, work),
    }
}

// After the calls, on a new rig, a show gives the expected entries, by their first parts; the others stay zero.
pub fn check_entries<R: Ring>(
    rt: &impl Abort,
    lent: Lent<R>,
    calls: &[Call],
    show: Show,
    expected: &[u32],
) {
    let Lent { slots, shown, work } = lent;
    let mut rig = Rig::new(slots);
    for call in calls {
        assert!(rt; make(&mut rig, *call).is_ok());
    }
    assert_eq!(rt; show_into(&rig, show, shown, work), Ok(()));
    check_parts(rt, shown, expected);
}

fn check_parts<R: Ring>(rt: &impl Abort, shown: &[R], expected: &[u32]) {
    let parts = expected.iter().copied().chain(repeat(0));
    for (number, part) in shown.iter().zip(parts) {
        assert_eq!(rt; number.part(0), Some(part));
    }
}
