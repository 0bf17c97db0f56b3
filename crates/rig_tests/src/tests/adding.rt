// Making and adding: the refusals at their boundaries, and their order.
use super::call::{Body, Call, check_calls, joints_on};
use refusal::Refusal;
use residue::RingA;
use rig::Slot;
use word::RingW;

pub const HINGE: Body = Body {
    letter: b'R',
    turn: (1, 0, 0, 0),
    mass: 1,
    moment: 0,
    inertia: 1,
};

// A prismatic joint, not turned, whose link has a mass alone.
pub fn slide(mass: i64) -> Body {
    Body {
        letter: b'P',
        turn: (1, 0, 0, 0),
        mass,
        moment: 0,
        inertia: 0,
    }
}

fn with_letter(letter: u8) -> Body {
    Body { letter, ..HINGE }
}

fn with_turn(turn: (i64, i64, i64, i64)) -> Body {
    Body { turn, ..HINGE }
}

#[test]
fn few_slots(rt: HostRuntime) {
    let none = [
        (Call::Gravity(3), Err(Refusal::NoSlot)),
        (Call::Add(0, HINGE), Err(Refusal::NoSlot)),
        (Call::Rate(0, 1), Err(Refusal::NoJoint)),
    ];
    check_calls(&rt, &mut [Slot::<RingA>::blank(); 0], &none);
    let one = [
        (Call::Gravity(3), Ok(0)),
        (Call::Add(0, HINGE), Err(Refusal::NoSlot)),
        (Call::Rate(1, 1), Err(Refusal::NoJoint)),
    ];
    check_calls(&rt, &mut [Slot::<RingA>::blank(); 1], &one);
    let two = [
        (Call::Add(0, HINGE), Ok(1)),
        (Call::Add(0, HINGE), Err(Refusal::NoSlot)),
        (Call::Rate(1, 1), Ok(0)),
    ];
    check_calls(&rt, &mut [Slot::<RingA>::blank(); 2], &two);
}

#[test]
fn many_slots(rt: HostRuntime) {
    assert_eq!(rt; joints_on(&mut [Slot::<RingA>::blank(); 24], HINGE), 23);
    assert_eq!(rt; joints_on(&mut [Slot::<RingA>::blank(); 25], HINGE), 24);
    assert_eq!(rt; joints_on(&mut [Slot::<RingA>::blank(); 26], HINGE), 24);
    assert_eq!(rt; joints_on(&mut [Slot::<RingA>::blank(); 30], HINGE), 24);
}

#[test]
fn parents(rt: HostRuntime) {
    let table = [
        (Call::Add(1, HINGE), Err(Refusal::NoParent)),
        (Call::Add(0, HINGE), Ok(1)),
        (Call::Add(2, HINGE), Err(Refusal::NoParent)),
        (Call::Add(-1, HINGE), Err(Refusal::NoParent)),
        (Call::Add(i64::MIN, HINGE), Err(Refusal::NoParent)),
        (Call::Add(i64::MAX, HINGE), Err(Refusal::NoParent)),
        (Call::Add(4294967296, HINGE), Err(Refusal::NoParent)),
        (Call::Add(-4294967296, HINGE), Err(Refusal::NoParent)),
        (Call::Add(1, HINGE), Ok(2)),
        (Call::Add(0, HINGE), Ok(3)),
    ];
    check_calls(&rt, &mut [Slot::<RingA>::blank(); 9], &table);
}

#[test]
fn letters(rt: HostRuntime) {
    let table = [
        (Call::Add(0, with_letter(b'r')), Err(Refusal::NoKind)),
        (Call::Add(0, with_letter(b'p')), Err(Refusal::NoKind)),
        (Call::Add(0, with_letter(b'Q')), Err(Refusal::NoKind)),
        (Call::Add(0, with_letter(b'S')), Err(Refusal::NoKind)),
        (Call::Add(0, with_letter(b'O')), Err(Refusal::NoKind)),
        (Call::Add(0, with_letter(b' ')), Err(Refusal::NoKind)),
        (Call::Add(0, with_letter(0)), Err(Refusal::NoKind)),
        (Call::Add(0, with_letter(255)), Err(Refusal::NoKind)),
        (Call::Add(0, with_letter(b'R')), Ok(1)),
        (Call::Add(0, with_letter(b'P')), Ok(2)),
    ];
    check_calls(&rt, &mut [Slot::<RingA>::blank(); 9], &table);
}

#[test]
fn norms(rt: HostRuntime) {
    let table = [
        (
            Call::Add(0, with_turn((0, 0, 0, 0))),
            Err(Refusal::NoRotation),
        ),
        (Call::Add(0, with_turn((1, 1, 0, 0))), Ok(1)),
    ];
    check_calls(&rt, &mut [Slot::<RingA>::blank(); 9], &table);
    let even = [
        (
            Call::Add(0, with_turn((1, 1, 0, 0))),
            Err(Refusal::NoRotation),
        ),
        (Call::Add(0, with_turn((1, 1, 1, 0))), Ok(1)),
    ];
    check_calls(&rt, &mut [Slot::<RingW>::blank(); 9], &even);
}

// The first question that gets a no decides.
#[test]
fn order(rt: HostRuntime) {
    let nowhere = Body {
        letter: b'X',
        turn: (0, 0, 0, 0),
        ..HINGE
    };
    let table = [
        (Call::Add(1, nowhere), Err(Refusal::NoParent)),
        (Call::Add(0, nowhere), Err(Refusal::NoKind)),
        (
            Call::Add(0, with_turn((0, 0, 0, 0))),
            Err(Refusal::NoRotation),
        ),
        (Call::Add(0, HINGE), Ok(1)),
        (Call::Add(9, nowhere), Err(Refusal::NoSlot)),
    ];
    check_calls(&rt, &mut [Slot::<RingA>::blank(); 2], &table);
}
