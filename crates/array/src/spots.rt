//! The runs of a volume set: how many blocks they have, and which protected block each of these is.
ghost use Rattle.std.specs.Prelude.{◌≡◌, ◌+◌, ◌<◌, ◌≤◌, sum_by, MatchOption};
ghost use Rattle.array.specs.Checks.{EachRun};
ghost use Rattle.array.specs.Places.{blocks_in};
ghost use Rattle.array.specs.Finding.{SpotAt, ShortRun};

use crate::volume::Run;

// A protected block of a group.
#[derive(Clone, Copy)]
pub(crate) struct GroupBlock {
    pub(crate) group: usize,
    pub(crate) block: usize,
}

// How many blocks the runs have together.
pub(crate) fn count_blocks(runs: &[Run]) -> usize
    requires { sum_by (λ r. r.count) runs.now ≤ 2097152 }
    ensures { result ≡ sum_by (λ r. r.count) runs.now }
{
    runs.iter().map(|run| run.count).sum()
}

// The protected block that is block `b` of the runs joined in order; none past their end.
pub(crate) fn find_spot(runs: &[Run], b: usize) -> Option<GroupBlock>
    requires { EachRun runs.now ShortRun }
    ensures { MatchOption result (blocks_in runs.now ≤ b) (SpotAt runs.now b) }
{
    let mut left = b;
    for run in runs {
        if left < run.count {
            return Some(GroupBlock {
                group: run.group,
                block: run.first + left,
            });
        }
        left -= run.count;
    }
    None
}
