// A link that turns about a fixed axis, and the torque that moves it.
#![tactic(auto)]

ghost use Rattle.std.specs.Prelude.{◌≡◌};
ghost use Rattle.std.specs.Option.{option_map};
ghost use Rattle.spatial.specs.Placements.{placement};
ghost use Rattle.pendulum.specs.NewtonEuler.{pendulum, steps, newton_euler_at, newton_euler};
ghost use Rattle.pendulum.specs.Equation.{equation};

use motion::{Force, Motion};
use ring::Ring;
use spatial::{Link, Placement};
use triple::Triple;

// The axis is the third one of a base at rest. `position` is the tangent of half the angle.
#[derive(Clone, Copy)]
pub struct Pendulum<R> {
    pub link: Link<R>,
    pub gravity: Triple<R>,
    pub position: R,
    pub rate: R,
    pub acceleration: R,
}

// The torque, and what it was worked out from.
#[derive(Clone, Copy)]
pub struct Steps<R> {
    pub velocity: Motion<R>,
    pub acceleration: Motion<R>,
    pub force: Force<R>,
    pub torque: R,
}

impl<R: Ring> Pendulum<R> {
    // v = X 0 + S q', a = X (0; -g) + S q'' + v × S q', f = I a + v ×* I v, and the torque S · f.
    fn steps_at(self, x: Placement<R>) -> Steps<R>
        ensures { steps R.Ring.value result ≡ newton_euler_at R.Ring.ring (pendulum R.Ring.value self) (placement R.Ring.value x) }
    {
        let axis = Motion::unit_turn();
        let base = Motion {
            angular: Triple::zero(),
            linear: -self.gravity,
        };
        let spin = axis.scale(self.rate);
        let velocity = x.outward(Motion::zero()) + spin;
        let acceleration = x.outward(base) + axis.scale(self.acceleration) + velocity.cross(spin);
        let force = self.link.apply(acceleration) + velocity.cross_force(self.link.apply(velocity));
        Steps {
            velocity,
            acceleration,
            force,
            torque: axis.dot(force),
        }
    }

    // The torque and its steps: none where 1 + t t is no unit, so that the position has no placement.
    pub fn torque(self) -> Option<Steps<R>>
        ensures is { option_map (steps R.Ring.value) result ≡ newton_euler R.Ring.ring (pendulum R.Ring.value self) }
        ensures equation { option_map (λ s. R.Ring.value s.torque) result ≡ equation R.Ring.ring (pendulum R.Ring.value self) }
    {
        let x = Placement::turn(self.position)?;
        Some(self.steps_at(x))
    }
}
