// Builds an arm of three joints through the calls of a rig, and prints every call with its answer or refusal.
#![tactic(auto)]

use answers::{Done, Joint};
use arm::{Body, FIRST, PLAIN, SECOND, THIRD, add};
use numbers::List;
use refusal::Refusal;
use residue::RingA;
use rig::{Rig, Slot, Work};
use ring::{Ring, whole};
use std::fmt::Display;
use std::io;
use triple::Triple;
use word::RingW;

mod answers;
mod arm;

// A call with its answer, or with its refusal.
fn report<T: Display + Drop>(
    rt: &HostRuntime,
    call: &str,
    answer: Result<T, Refusal>,
) -> io::Result<()> {
    match answer {
        Ok(answer) => println!(rt; "{call:<46}  {answer}"),
        Err(refusal) => println!(rt; "{call:<46}  {refusal}"),
    }
}

// Three joints, and each way in which adding is refused.
fn build(rt: &HostRuntime, rig: &mut Rig<RingA>) -> io::Result<()> {
    let unturned = Body {
        turn: (0, 0, 0, 0),
        ..THIRD
    };
    let answers = [
        ("add 0 R", add(rig, 0, b'R', FIRST)),
        ("add 1 P", add(rig, 1, b'P', SECOND)),
        ("add 5 R, with two joints there", add(rig, 5, b'R', THIRD)),
        ("add 1 X", add(rig, 1, b'X', SECOND)),
        ("add 1 R, turned by 0 0 0 0", add(rig, 1, b'R', unturned)),
        ("add 1 R", add(rig, 1, b'R', THIRD)),
        ("add 0 R, with no slot left", add(rig, 0, b'R', FIRST)),
    ];
    for (call, answer) in answers {
        report(rt, call, answer.map(Joint))?;
    }
    Ok(())
}

fn set(rt: &HostRuntime, rig: &mut Rig<RingA>) -> io::Result<()> {
    let answers = [
        ("set_gravity 1 2 3", rig.set_gravity(Triple::whole(1, 2, 3))),
        ("set_position 1 2", rig.set_position(1, whole(2))),
        ("set_position 2 7", rig.set_position(2, whole(7))),
        ("set_position 3 3", rig.set_position(3, whole(3))),
        ("set_rate 1 5", rig.set_rate(1, whole(5))),
        ("set_rate 2 2", rig.set_rate(2, whole(2))),
        ("set_rate 3 6", rig.set_rate(3, whole(6))),
        (
            "set_rate 4 6, with three joints there",
            rig.set_rate(4, whole(6)),
        ),
        ("set_rate -1 6", rig.set_rate(-1, whole(6))),
        ("set_acceleration 1 3", rig.set_acceleration(1, whole(3))),
        ("set_acceleration 2 4", rig.set_acceleration(2, whole(4))),
        ("set_acceleration 3 1", rig.set_acceleration(3, whole(1))),
        ("set_force 1 9", rig.set_force(1, whole(9))),
    ];
    for (call, answer) in answers {
        report(rt, call, answer.map(|()| Done))?;
    }
    Ok(())
}

fn show(rt: &HostRuntime, rig: &Rig<RingA>) -> io::Result<()> {
    let mut work = [Work::blank(); 4];
    let mut torques = [RingA::zero(); 3];
    let answer = rig.show_torques(&mut torques, &mut work);
    report(rt, "show_torques", answer.map(|()| List(&torques)))?;
    let mut matrix = [RingA::zero(); 9];
    let answer = rig.show_matrix(&mut matrix, &mut work);
    report(rt, "show_matrix", answer.map(|()| List(&matrix)))?;
    let answer = rig.show_matrix(&mut torques, &mut work);
    report(rt, "show_matrix into three entries", answer.map(|()| Done))?;
    let mut short = [Work::blank(); 3];
    let answer = rig.show_torques(&mut torques, &mut short);
    report(
        rt,
        "show_torques with three work entries",
        answer.map(|()| Done),
    )
}

// A revolute joint modulo 2^32 has no position t where 1 + t t is even.
fn show_positions(rt: &HostRuntime) -> io::Result<()> {
    let mut slots = [Slot::<RingW>::blank(); 2];
    let mut rig = Rig::new(&mut slots);
    report(rt, "add 0 R", add(&mut rig, 0, b'R', PLAIN).map(Joint))?;
    let answer = rig.set_position(1, whole(1));
    report(rt, "set_position 1 1", answer.map(|()| Done))?;
    let answer = rig.set_position(1, whole(2));
    report(rt, "set_position 1 2", answer.map(|()| Done))
}

fn main(rt: HostRuntime) -> io::Result<()> {
    println!(rt; "A rig over four slots, modulo 2147483647")?;
    let mut slots = [Slot::<RingA>::blank(); 4];
    let mut rig = Rig::new(&mut slots);
    build(&rt, &mut rig)?;
    set(&rt, &mut rig)?;
    show(&rt, &rig)?;
    println!(rt; "")?;
    println!(rt; "A rig over two slots, modulo 4294967296")?;
    show_positions(&rt)
}
