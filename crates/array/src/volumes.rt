//! Volume sets: making and deleting them, write control, and deleting groups.
ghost use Rattle.std.specs.Prelude.{◌≡◌, ◌<◌, ◌≤◌, true, length, Some, None};
ghost use Rattle.array.specs.Arrays.{config};
ghost use Rattle.array.specs.Calls.{Asked, Configures};
ghost use Rattle.array.specs.Checks.{delete_group_checks, volume_checks, delete_volume_checks, control_checks};
ghost use Rattle.array.specs.Configuration.{nothing, with_group, with_volume, new_volume, with_writes, controlled, mapped_option, volume_view};

use crate::refusal::{Refusal, Refused, ensure};
use crate::scan::{
    are_counted, are_inside, are_separate, are_unassigned, have_groups, is_free, is_unused,
};
use crate::tables::{Array, MOST_GROUPS, MOST_VOLUMES};
use crate::volume::{MOST_RUNS, Run, Volume};

// A volume set on these runs, writes enabled.
fn volume_on(runs: &[Run]) -> Volume
    requires { (1 ≤ length runs.now) × (length runs.now ≤ 4) }
    ensures { volume_view result ≡ record { runs = runs.entry.now; writes = true } }
{
    let mut list = [Run {
        group: 0,
        first: 0,
        count: 0,
    }; MOST_RUNS];
    list[..runs.len()].copy_from_slice(runs);
    Volume {
        runs: list,
        count: runs.len(),
        writes: true,
    }
}

// The volume set, if any, with writes enabled or disabled.
fn with_control(volume: Option<Volume>, on: bool) -> Option<Volume>
    ensures { mapped_option volume_view result ≡ mapped_option (with_writes on) (mapped_option volume_view volume) }
{
    let mut volume = volume?;
    volume.writes = on;
    Some(volume)
}

impl Array {
    /// An array in which nothing is configured.
    #[tactic(auto, using(crate::proofs::Keeping::nothing_fields))]
    pub fn new() -> Array
        ensures { config result ≡ nothing }
    {
        Array {
            groups: [None; MOST_GROUPS],
            volumes: [None; MOST_VOLUMES],
        }
    }

    /// Deletes group `g`, in which no run may lie.
    pub fn delete_group(&mut self, g: usize) -> Result<(), Refused>
        ensures { Configures (delete_group_checks (config self.old) g) (config self.old) (config self.new) (with_group (config self.old) g None) result }
    {
        self.slot(g)?;
        ensure(is_unused(&self.volumes, g), Refusal::Conflict)?;
        self.groups[g] = None;
        Ok(())
    }

    // Whether a volume set may be made as `v` on these runs.
    fn check_volume(&self, v: usize, runs: &[Run]) -> Result<(), Refused>
        ensures { Asked (volume_checks (config self.now) v runs.now) (λ _. v < 16) result }
    {
        ensure(are_counted(runs), Refusal::Field)?;
        ensure(have_groups(&self.groups, runs), Refusal::NotConfigured)?;
        ensure(is_free(&self.volumes, v), Refusal::NotConfigured)?;
        ensure(are_inside(&self.groups, runs), Refusal::Outside)?;
        ensure(are_unassigned(&self.volumes, runs), Refusal::Conflict)?;
        ensure(are_separate(runs), Refusal::Conflict)
    }

    /// Makes volume set `v` on these runs, joined in order, with writes enabled.
    pub fn make_volume(&mut self, v: usize, runs: &[Run]) -> Result<(), Refused>
        ensures { Configures (volume_checks (config self.old) v runs.now) (config self.old) (config self.new) (with_volume (config self.old) v (new_volume runs.now)) result }
    {
        self.check_volume(v, runs)?;
        self.volumes[v] = Some(volume_on(runs));
        Ok(())
    }

    /// Deletes volume set `v`.
    pub fn delete_volume(&mut self, v: usize) -> Result<(), Refused>
        ensures { Configures (delete_volume_checks (config self.old) v) (config self.old) (config self.new) (with_volume (config self.old) v None) result }
    {
        self.volume(v)?;
        self.volumes[v] = None;
        Ok(())
    }

    // Enables or disables the writes of volume set `v`, if there is one.
    fn control(&mut self, v: usize, on: bool)
        requires { v < 16 }
        ensures { config self.new ≡ controlled (config self.old) (Some v) on }
    {
        self.volumes[v] = with_control(self.volumes[v], on);
    }

    // The same of all volume sets, each where it stands: `map` would move the table several times.
    #[tactic(auto, using(crate::proofs::Control::control_next))]
    fn control_all(&mut self, on: bool)
        ensures { config self.new ≡ controlled (config self.old) None on }
    {
        for volume in self.volumes.iter_mut() {
            *volume = with_control(*volume, on);
        }
    }

    /// Enables or disables the writes of volume set `v`, or of all where none is named.
    pub fn write_control(&mut self, v: Option<usize>, on: bool) -> Result<(), Refused>
        ensures { Configures (control_checks (config self.old) v) (config self.old) (config self.new) (controlled (config self.old) v on) result }
    {
        if let Some(one) = v {
            self.volume(one)?;
            self.control(one, on);
        } else {
            self.control_all(on);
        }
        Ok(())
    }
}
