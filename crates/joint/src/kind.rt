// The two kinds of joint.
ghost use Rattle.std.specs.Prelude.{◌≡◌};
ghost use Rattle.std.specs.Option.{option_map};
ghost use Rattle.motion.specs.Vectors.{motion};
ghost use Rattle.spatial.specs.Placements.{placement};
ghost use Rattle.joint.specs.Joints.{axis, own};
ghost use Rattle.joint.specs.Letters.{NamedBy};

use motion::Motion;
use ring::Ring;
use spatial::Placement;

// A revolute joint turns about its third axis, a prismatic one slides along it.
#[derive(Clone, Copy, Debug, PartialEq, Eq)]
pub enum JointKind {
    Revolute,
    Prismatic,
}

// A letter that names no kind of joint.
#[derive(Clone, Copy, Debug, PartialEq, Eq)]
pub struct UnknownKind(pub u8);

impl TryFrom<u8> for JointKind {
    type Error = UnknownKind;

    ghost try_from_gives = { NamedBy };

    fn try_from(letter: u8) -> Result<JointKind, UnknownKind> {
        match letter {
            b'R' => Ok(JointKind::Revolute),
            b'P' => Ok(JointKind::Prismatic),
            _ => Err(UnknownKind(letter)),
        }
    }
}

impl JointKind {
    // S, the motion of the joint at rate one.
    pub fn axis<R: Ring>(self) -> Motion<R>
        ensures { motion R.Ring.value result ≡ axis R.Ring.ring self }
    {
        match self {
            JointKind::Revolute => Motion::unit_turn(),
            JointKind::Prismatic => Motion::unit_slide(),
        }
    }

    // The joint's own placement. A revolute joint's position is the tangent t of half the angle, and
    // there is none where 1 + t t is no unit; a prismatic joint's position is a length.
    pub fn placement<R: Ring>(self, position: R) -> Option<Placement<R>>
        ensures { option_map (placement R.Ring.value) result ≡ own R.Ring.ring self (R.Ring.value position) }
    {
        match self {
            JointKind::Revolute => Placement::turn(position),
            JointKind::Prismatic => Some(Placement::slide(position)),
        }
    }
}
