// Arms and numbers whose figures are known beforehand.
#![tactic(auto)]

ghost use Rattle.std.specs.Prelude.{◌≡◌, [], ◌∷◌, Some};
ghost use Rattle.std.specs.Option.{option_map};
ghost use Rattle.modular.specs.Below.{one_part};
ghost use Rattle.residue.specs.Residues.{residues, residue_value};
ghost use Rattle.dual.specs.DualNumbers.{dual, dual_map, dual_parts, duals};
ghost use Rattle.pendulum.specs.NewtonEuler.{pendulum, steps, newton_euler};
ghost use Rattle.figures.specs.Arm.{arm as described, skew};
ghost use Rattle.figures.specs.Known.{Known, in_a};

use dual::Dual;
use pendulum::{Pendulum, Steps};
use residue::RingA;
use ring::{Ring, whole};
use spatial::Link;
use symmetric::Symmetric3;
use triple::Triple;

// Each known figure is what the definitions give that the contracts of the code cite.
pub fn known_figures<R: Ring>()
    ensures { Known R.Ring.ring }
{}

// Mass 2, first moment (2, 0, 0), J22 = J33 = 2, gravity (0, -10, 0) and acceleration 3.
pub fn arm<R: Ring>(position: R, rate: R) -> Pendulum<R>
    ensures { pendulum R.Ring.value result ≡ described R.Ring.ring (R.Ring.value position) (R.Ring.value rate) }
{
    Pendulum {
        link: Link {
            mass: whole(2),
            first_moment: Triple::whole(2, 0, 0),
            inertia: Symmetric3::whole(0, 0, 0, 2, 0, 2),
        },
        gravity: Triple::whole(0, -10, 0),
        position,
        rate,
        acceleration: whole(3),
    }
}

// The arm at t = 0 and rate 5, modulo 2147483647.
pub fn plain_arm() -> Pendulum<RingA>
    ensures { pendulum (residue_value 2147483647) result ≡ described (residues 2147483647) (in_a 0) (in_a 5) }
{
    arm(whole(0), whole(5))
}

// The arm at t = 1 + e and rate 0, over the dual numbers.
pub fn sloped_arm() -> Pendulum<Dual<RingA>>
    ensures { pendulum (dual_map (residue_value 2147483647)) result ≡ described (duals (residues 2147483647)) (dual (in_a 1) (in_a 1)) (dual (in_a 0) (in_a 0)) }
{
    let t = Dual {
        first: whole(1),
        second: whole(1),
    };
    arm(t, whole(0))
}

// The plain arm's torque is 26.
pub fn plain_torque() -> Option<Steps<RingA>>
    ensures is { option_map (steps (residue_value 2147483647)) result ≡ newton_euler (residues 2147483647) (described (residues 2147483647) (in_a 0) (in_a 5)) }
    ensures figure { option_map (λ s. one_part (residue_value 2147483647 s.torque)) result ≡ Some (26 ∷ []) }
{
    plain_arm().torque()
}

// The sloped arm's torque is 6, and its slope is -20.
pub fn sloped_torque() -> Option<Steps<Dual<RingA>>>
    ensures is { option_map (steps (dual_map (residue_value 2147483647))) result ≡ newton_euler (duals (residues 2147483647)) (described (duals (residues 2147483647)) (dual (in_a 1) (in_a 1)) (dual (in_a 0) (in_a 0))) }
    ensures figure { option_map (λ s. dual_parts one_part (dual_map (residue_value 2147483647) s.torque)) result ≡ Some (6 ∷ 2147483627 ∷ []) }
{
    sloped_arm().torque()
}

// An arm with few zeros: mass 2, first moment (5, 10, 15), inertia 1 2 3 4 5 7, gravity
// (1, 2, 3), t = 2, rate 5 and acceleration 3. It tells apart what the arm above has equal or zero.
pub fn skew_arm() -> Pendulum<RingA>
    ensures { pendulum (residue_value 2147483647) result ≡ skew (residues 2147483647) }
{
    Pendulum {
        link: Link {
            mass: whole(2),
            first_moment: Triple::whole(5, 10, 15),
            inertia: Symmetric3::whole(1, 2, 3, 4, 5, 7),
        },
        gravity: Triple::whole(1, 2, 3),
        position: whole(2),
        rate: whole(5),
        acceleration: whole(3),
    }
}

// The skew arm's torque is 41.
pub fn skew_torque() -> Option<Steps<RingA>>
    ensures is { option_map (steps (residue_value 2147483647)) result ≡ newton_euler (residues 2147483647) (skew (residues 2147483647)) }
    ensures figure { option_map (λ s. one_part (residue_value 2147483647 s.torque)) result ≡ Some (41 ∷ []) }
{
    skew_arm().torque()
}
