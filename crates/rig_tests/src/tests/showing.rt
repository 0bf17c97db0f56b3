// The shows: lists that are too short, entries that stay, and refused calls that leave everything.
use super::adding::HINGE;
use super::call::{Call, Lent, Show, check_calls_on, check_entries, show_into};
use refusal::Refusal;
use residue::RingA;
use rig::{Rig, Slot, Work};
use ring::Ring;
use std::process::Abort;

// Each show into the first entries of two lists, with how many of each, answers as the table says. The lists are not
// cleared between two shows.
fn check_shows(
    rt: &impl Abort,
    rig: &Rig<RingA>,
    shown: &mut [RingA],
    work: &mut [Work<RingA>],
    table: &[(Show, usize, usize, Result<(), Refusal>)],
) {
    for (show, results, works, expected) in table {
        let results = (*results).min(shown.len());
        let works = (*works).min(work.len());
        let answer = show_into(rig, *show, &mut shown[..results], &mut work[..works]);
        assert_eq!(rt; answer, *expected);
    }
}

#[test]
fn lengths(rt: HostRuntime) {
    let mut slots = [Slot::<RingA>::blank(); 9];
    let mut rig = Rig::new(&mut slots);
    let mut shown = [RingA::zero(); 24];
    let mut work = [Work::<RingA>::blank(); 24];
    let none = [
        (Show::Torques, 0, 0, Err(Refusal::ShortWork)),
        (Show::Matrix, 0, 0, Err(Refusal::ShortWork)),
        (Show::Torques, 0, 1, Ok(())),
        (Show::Matrix, 0, 1, Ok(())),
    ];
    check_shows(&rt, &rig, &mut shown, &mut work, &none);
    let joints = [(Call::Add(0, HINGE), Ok(1)), (Call::Add(1, HINGE), Ok(2))];
    check_calls_on(&rt, &mut rig, &joints);
    let two = [
        (Show::Torques, 1, 2, Err(Refusal::ShortResult)),
        (Show::Torques, 1, 3, Err(Refusal::ShortResult)),
        (Show::Torques, 2, 2, Err(Refusal::ShortWork)),
        (Show::Torques, 2, 3, Ok(())),
        (Show::Torques, 5, 4, Ok(())),
        (Show::Matrix, 3, 2, Err(Refusal::ShortResult)),
        (Show::Matrix, 3, 3, Err(Refusal::ShortResult)),
        (Show::Matrix, 4, 2, Err(Refusal::ShortWork)),
        (Show::Matrix, 4, 3, Ok(())),
        (Show::Matrix, 7, 4, Ok(())),
    ];
    check_shows(&rt, &rig, &mut shown, &mut work, &two);
}

// Without joints nothing is shown, and no entry is touched.
#[test]
fn nothing_to_show(rt: HostRuntime) {
    for show in [Show::Torques, Show::Matrix] {
        let lent = Lent {
            slots: &mut [Slot::<RingA>::blank(); 9],
            shown: &mut [RingA::zero(); 24],
            work: &mut [Work::<RingA>::blank(); 24],
        };
        check_entries(&rt, lent, &[Call::Gravity(4)], show, &[]);
    }
}
