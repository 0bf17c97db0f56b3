// Questions that several calls put.
ghost use Rattle.std.specs.Prelude.{◌≡◌, ℕ, ◌*◌, ◌≤◌, false, length, pos, MatchOption};
ghost use Rattle.rig.specs.Questions.{first_no, answered, showing, is_between};

use crate::rig::Rig;
use crate::work::Work;
use refusal::Refusal;
use ring::Ring;

// The number of a joint or the base, where it is one of `least` to `n`.
pub(crate) fn within(number: i64, least: usize, n: usize) -> Option<usize>
    ensures { MatchOption result (is_between least n number ≡ false) (λ i. (number ≡ pos i) × (least ≤ i) × (i ≤ n)) }
{
    usize::try_from(number)
        .ok()
        .filter(|i| least <= *i && *i <= n)
}

impl<'a, R: Ring> Rig<'a, R> {
    // Whether the lists of a show that fills `wanted` entries are long enough.
    pub(crate) fn check_lists(
        &self,
        wanted: usize,
        res: &[R],
        work: &[Work<R>],
    ) -> Result<(), Refusal>
        ensures { result ≡ answered tt (first_no (showing self.now.n wanted (length res.now) (length work.now))) }
    {
        if res.len() < wanted {
            return Err(Refusal::ShortResult);
        }
        if work.len() <= self.n {
            return Err(Refusal::ShortWork);
        }
        Ok(())
    }
}
