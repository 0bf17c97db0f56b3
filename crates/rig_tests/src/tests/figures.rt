// Figures that are known beforehand, through the calls of a rig.
use super::adding::slide;
use super::call::{Body, Call, Lent, Show, check_entries};
use residue::RingA;
use rig::{Slot, Work};
use ring::Ring;
use word::RingW;

// The swing: one revolute joint, gravity (0, -10, 0), rate 5, acceleration 3.
#[test]
fn swing(rt: HostRuntime) {
    let arm = Body {
        letter: b'R',
        turn: (1, 0, 0, 0),
        mass: 2,
        moment: 2,
        inertia: 2,
    };
    let calls = [
        Call::Add(0, arm),
        Call::Gravity(-10),
        Call::Rate(1, 5),
        Call::Acceleration(1, 3),
    ];
    let lent = Lent {
        slots: &mut [Slot::<RingA>::blank(); 9],
        shown: &mut [RingA::zero(); 24],
        work: &mut [Work::<RingA>::blank(); 24],
    };
    check_entries(&rt, lent, &calls, Show::Torques, &[26]);
}

// The slides: masses 2 and 3, one on the other.
#[test]
fn slides(rt: HostRuntime) {
    let calls = [Call::Add(0, slide(2)), Call::Add(1, slide(3))];
    let lent = Lent {
        slots: &mut [Slot::<RingA>::blank(); 9],
        shown: &mut [RingA::zero(); 24],
        work: &mut [Work::<RingA>::blank(); 24],
    };
    check_entries(&rt, lent, &calls, Show::Matrix, &[5, 3, 3, 3]);
    let lent = Lent {
        slots: &mut [Slot::<RingW>::blank(); 9],
        shown: &mut [RingW::zero(); 24],
        work: &mut [Work::<RingW>::blank(); 24],
    };
    check_entries(&rt, lent, &calls, Show::Matrix, &[5, 3, 3, 3]);
}

// Crossed: a slide without mass, and across it a revolute joint with a first moment only.
#[test]
fn crossed(rt: HostRuntime) {
    let across = Body {
        letter: b'R',
        turn: (1, 1, 0, 0),
        mass: 0,
        moment: 1,
        inertia: 0,
    };
    let calls = [Call::Add(0, slide(0)), Call::Add(1, across)];
    let lent = Lent {
        slots: &mut [Slot::<RingA>::blank(); 9],
        shown: &mut [RingA::zero(); 24],
        work: &mut [Work::<RingA>::blank(); 24],
    };
    check_entries(&rt, lent, &calls, Show::Matrix, &[0, 1, 1, 0]);
}
