// Works one pendulum's torque through, over the ring A and over its dual numbers, and prints each step.
#![tactic(auto)]

use figures::{plain_arm, plain_torque, skew_arm, skew_torque, sloped_arm, sloped_torque};
use numbers::{Number, Row, Six};
use pendulum::{Pendulum, Steps};
use ring::Ring;
use spatial::Link;
use std::io;
use triple::Triple;

fn print_link<R: Ring>(rt: &HostRuntime, link: Link<R>) -> io::Result<()> {
    let j = link.inertia;
    let top = Row(Triple {
        x: j.xx,
        y: j.xy,
        z: j.xz,
    });
    let rest = Row(Triple {
        x: j.yy,
        y: j.yz,
        z: j.zz,
    });
    println!(rt; "mass          {}", Number(link.mass))?;
    println!(rt; "first moment  {}", Row(link.first_moment))?;
    println!(rt; "inertia       {top} {rest}")
}

fn print_arm<R: Ring>(rt: &HostRuntime, arm: Pendulum<R>) -> io::Result<()> {
    print_link(rt, arm.link)?;
    println!(rt; "gravity       {}", Row(arm.gravity))?;
    println!(rt; "position      {}", Number(arm.position))?;
    println!(rt; "rate          {}", Number(arm.rate))?;
    println!(rt; "acceleration  {}", Number(arm.acceleration))
}

fn print_steps<R: Ring>(rt: &HostRuntime, steps: Steps<R>) -> io::Result<()> {
    let v = steps.velocity;
    let a = steps.acceleration;
    let f = steps.force;
    println!(rt;
        "v = X 0 + S q'                    {}",
        Six(v.angular, v.linear)
    )?;
    println!(rt;
        "a = X (0; -g) + S q'' + v x S q'  {}",
        Six(a.angular, a.linear)
    )?;
    println!(rt;
        "f = I a + v x* I v                {}",
        Six(f.moment, f.linear)
    )?;
    println!(rt;
        "torque = S . f                    {}",
        Number(steps.torque)
    )
}

fn print_outcome<R: Ring>(rt: &HostRuntime, outcome: Option<Steps<R>>) -> io::Result<()> {
    match outcome {
        Some(steps) => print_steps(rt, steps),
        None => println!(rt; "1 + t t is no unit: the position has no placement"),
    }
}

fn main(rt: HostRuntime) -> io::Result<()> {
    println!(rt; "A link on a fixed axis, modulo 2147483647")?;
    print_arm(&rt, plain_arm())?;
    print_outcome(&rt, plain_torque())?;
    println!(rt; "")?;
    println!(rt; "The same at rate 0 and t = 1 + e: each number, a comma, its slope")?;
    print_arm(&rt, sloped_arm())?;
    print_outcome(&rt, sloped_torque())?;
    println!(rt; "")?;
    println!(rt; "Another link, whose numbers all differ")?;
    print_arm(&rt, skew_arm())?;
    print_outcome(&rt, skew_torque())
}
