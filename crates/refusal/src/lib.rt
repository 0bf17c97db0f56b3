// Why a call of a rig is refused.
#![tactic(auto)]

ghost use Rattle.std.specs.Prelude.{◌≡◌, Some};
ghost use Rattle.refusal.specs.Refusals.{number as number_of, joint as joint_of, refusal_text};
ghost use Rattle.refusal.specs.declared.Refusal.TheVariants.{NoKind};

use joint::UnknownKind;
use std::error::Error;
use std::fmt;

#[derive(Clone, Copy, Debug, PartialEq, Eq)]
pub enum Refusal {
    NoSlot,
    NoParent,
    NoKind,
    NoRotation,
    NoJoint,
    NoPosition(usize),
    ShortResult,
    ShortWork,
}

impl Refusal {
    // The number of the question that got a no.
    pub fn number(self) -> u32
        ensures { result ≡ number_of self }
    {
        match self {
            Refusal::NoSlot => 1,
            Refusal::NoParent => 2,
            Refusal::NoKind => 3,
            Refusal::NoRotation => 4,
            Refusal::NoJoint => 5,
            Refusal::NoPosition(_) => 6,
            Refusal::ShortResult => 7,
            Refusal::ShortWork => 8,
        }
    }

    // The joint that the refusal names, or 0.
    pub fn joint(self) -> usize
        ensures { result ≡ joint_of self }
    {
        match self {
            Refusal::NoPosition(joint) => joint,
            _ => 0,
        }
    }
}

impl From<UnknownKind> for Refusal {
    ghost from_gives = { λ _ r. r ≡ NoKind };

    fn from(_letter: UnknownKind) -> Refusal {
        Self::NoKind
    }
}

impl fmt::Display for Refusal {
    ghost output = { λ refusal. Some (refusal_text refusal) };

    fn fmt<W: fmt::Write>(&self, f: &mut fmt::Formatter<W>) -> fmt::Result {
        let number = self.number();
        let joint = self.joint();
        write!(f, "refused {number}, joint {joint}")
    }
}

impl Error for Refusal {}
