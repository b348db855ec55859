//! What the tables hold: the checks that read them.
ghost use Rattle.std.specs.Prelude.{◌≡◌, ℕ, ◌+◌, ◌<◌, ◌≤◌, [], length, IsTrue, ◌↔◌, MatchOption, ◌≢◌};
ghost use Rattle.array.specs.Checks.{EachRun, RunsSeparate};
ghost use Rattle.array.specs.Configuration.{Configured, Free, RunsOverlap, UnassignedRun, HasRun, group_at, volume_at, group_view, volume_view, configuration, mapped_option, no_volume, or_else, run as run_of};
ghost use Rattle.array.specs.Finding.{EntryAt};
ghost use Rattle.array.specs.Places.{size_of};

use crate::slot::GroupSlot;
use crate::volume::{MOST_RUNS, Run, Volume};

impl Volume {
    /// The runs there are.
    pub(crate) fn active(&self) -> &[Run]
        ensures { result.now ≡ (volume_view self.now).runs }
    {
        &self.runs[..self.count]
    }
}

impl GroupSlot {
    /// How many protected blocks the group has.
    pub(crate) fn size(&self) -> usize
        ensures { result ≡ size_of (group_view self.now) }
    {
        self.kind.protected_blocks(&self.group.geometry())
    }
}

/// What stands under a number in a table, if anything does.
pub(crate) fn entry<T>(table: &[Option<T>], n: usize) -> Option<&T>
    ensures { MatchOption result (Configured table.now n → ⊥) (λ x. EntryAt table.now n x.now) }
{
    table.get(n)?.as_ref()
}

/// Whether something may be made under the number.
pub(crate) fn is_free<T>(table: &[Option<T>], n: usize) -> bool
    ensures { IsTrue result ↔ Free table.now n }
{
    matches!(table.get(n), Some(None))
}

// The runs of a volume set, if there is one.
fn runs_of(volume: &Option<Volume>) -> &[Run]
    ensures { result.now ≡ (or_else no_volume (mapped_option volume_view volume.now)).runs }
{
    match volume {
        Some(volume) => volume.active(),
        None => &[],
    }
}

// How many protected blocks group `g` has; none where there is no such group.
fn size_at(groups: &[Option<GroupSlot>], g: usize) -> usize
    ensures { result ≡ size_of (group_at (configuration groups.now []) g) }
{
    entry(groups, g).map_or(0, GroupSlot::size)
}

// Whether one of the runs lies in group `g`.
fn lies_in(runs: &[Run], g: usize) -> bool
    ensures { IsTrue result ↔ ((j : ℕ) × (j < length runs.now) × ((run_of runs.now j).group ≡ g)) }
{
    runs.iter().any(|run| run.group == g)
}

/// Whether no run of a volume set lies in group `g`.
pub(crate) fn is_unused(volumes: &[Option<Volume>], g: usize) -> bool
    ensures { IsTrue result ↔ ((v j : ℕ) → HasRun (configuration [] volumes.now) v j → (run_of (volume_at (configuration [] volumes.now) v).runs j).group ≢ g) }
{
    volumes.iter().all(|volume| !lies_in(runs_of(volume), g))
}

// Whether some protected block lies in both runs.
fn overlap(r: Run, s: Run) -> bool
    ensures { IsTrue result ↔ RunsOverlap r s }
{
    r.group == s.group
        && if r.first <= s.first {
            s.count > 0 && s.first - r.first < r.count
        } else {
            r.count > 0 && r.first - s.first < s.count
        }
}

// Whether some protected block lies in `r` and in one of the runs.
fn overlaps_any(r: Run, runs: &[Run]) -> bool
    ensures { IsTrue result ↔ ((j : ℕ) × (j < length runs.now) × RunsOverlap r (run_of runs.now j)) }
{
    runs.iter().any(|s| overlap(r, *s))
}

// Whether some protected block lies in one of the runs and in one of the others.
fn meet(runs: &[Run], others: &[Run]) -> bool
    ensures { IsTrue result ↔ ((i : ℕ) × (i < length runs.now) × (j : ℕ) × (j < length others.now) × RunsOverlap (run_of runs.now i) (run_of others.now j)) }
{
    runs.iter().any(|run| overlaps_any(*run, others))
}

/// Whether none of the runs shares a block with a run of a volume set.
pub(crate) fn are_unassigned(volumes: &[Option<Volume>], runs: &[Run]) -> bool
    ensures { IsTrue result ↔ EachRun runs.now (UnassignedRun (configuration [] volumes.now)) }
{
    volumes.iter().all(|volume| !meet(runs, runs_of(volume)))
}

/// Whether no two of the runs share a block.
pub(crate) fn are_separate(runs: &[Run]) -> bool
    ensures { IsTrue result ↔ RunsSeparate runs.now }
{
    runs.iter()
        .enumerate()
        .all(|(j, run)| !overlaps_any(*run, &runs[..j]))
}

/// Whether `count` blocks from `start` on end no later than `end`.
pub(crate) fn ends_by(start: usize, count: usize, end: usize) -> bool
    ensures { IsTrue result ↔ (start + count ≤ end) }
{
    start <= end && count <= end - start
}

/// Whether every run ends inside its group.
pub(crate) fn are_inside(groups: &[Option<GroupSlot>], runs: &[Run]) -> bool
    ensures { IsTrue result ↔ EachRun runs.now (λ r. r.first + r.count ≤ size_of (group_at (configuration groups.now []) r.group)) }
{
    runs.iter().all(|run| ends_by(run.first, run.count, size_at(groups, run.group)))
}

/// Whether the groups of all the runs are there.
pub(crate) fn have_groups(groups: &[Option<GroupSlot>], runs: &[Run]) -> bool
    ensures { IsTrue result ↔ EachRun runs.now (λ r. Configured (configuration groups.now []).groups r.group) }
{
    runs.iter().all(|run| entry(groups, run.group).is_some())
}

/// Whether there are one to four runs, each of at least one block.
pub(crate) fn are_counted(runs: &[Run]) -> bool
    ensures { IsTrue result ↔ ((1 ≤ length runs.now) × (length runs.now ≤ 4) × EachRun runs.now (λ r. 1 ≤ r.count)) }
{
    !runs.is_empty() && runs.len() <= MOST_RUNS && runs.iter().all(|run| run.count > 0)
}
