// The five settings: which joints there are, and which positions.
use super::adding::{HINGE, slide};
use super::call::{Call, check_calls};
use refusal::Refusal;
use residue::{RingA, RingB};
use rig::Slot;
use std::process::Abort;
use word::RingW;

fn check_joint(rt: &impl Abort, joint: i64, answer: Result<usize, Refusal>) {
    let table = [
        (Call::Rate(1, 5), Err(Refusal::NoJoint)),
        (Call::Add(0, HINGE), Ok(1)),
        (Call::Add(1, slide(1)), Ok(2)),
        (Call::Position(joint, 5), answer),
        (Call::Rate(joint, 5), answer),
        (Call::Acceleration(joint, 5), answer),
        (Call::Force(joint, 5), answer),
    ];
    check_calls(rt, &mut [Slot::<RingA>::blank(); 9], &table);
}

#[test]
fn joints(rt: HostRuntime) {
    for joint in [0, -1, 3, i64::MIN, i64::MAX, 4294967297, -4294967295] {
        check_joint(&rt, joint, Err(Refusal::NoJoint));
    }
    check_joint(&rt, 1, Ok(0));
    check_joint(&rt, 2, Ok(0));
}

// Modulo 2^32 a revolute joint has no odd position, a prismatic one has each; modulo 65521 there are two numbers whose
// square is minus one.
#[test]
fn positions(rt: HostRuntime) {
    let table = [
        (Call::Add(0, HINGE), Ok(1)),
        (Call::Add(1, slide(1)), Ok(2)),
        (Call::Add(2, HINGE), Ok(3)),
        (Call::Position(1, 1), Err(Refusal::NoPosition(1))),
        (Call::Position(1, 2), Ok(0)),
        (Call::Position(2, 1), Ok(0)),
        (Call::Position(3, -3), Err(Refusal::NoPosition(3))),
        (Call::Position(4, 1), Err(Refusal::NoJoint)),
    ];
    check_calls(&rt, &mut [Slot::<RingW>::blank(); 9], &table);
    let roots = [
        (Call::Add(0, HINGE), Ok(1)),
        (Call::Position(1, 24297), Err(Refusal::NoPosition(1))),
        (Call::Position(1, 41224), Err(Refusal::NoPosition(1))),
        (Call::Position(1, 24298), Ok(0)),
    ];
    check_calls(&rt, &mut [Slot::<RingB>::blank(); 2], &roots);
}
