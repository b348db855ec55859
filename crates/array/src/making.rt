//! Making a group.
ghost use Rattle.std.specs.Prelude.{◌≡◌, ◌<◌, IsTrue, ◌↔◌, [], MatchOption};
ghost use Rattle.layout.specs.Extents.{Sound};
ghost use Rattle.array.specs.Arrays.{config};
ghost use Rattle.array.specs.Blaming.{broken_by};
ghost use Rattle.array.specs.Configuration.{Unassigned, configuration};
ghost use Rattle.array.specs.Checks.{EachExtent, DifferentDrives, GroupFields};
ghost use Rattle.array.specs.Calls.{MakesGroup};
ghost use Rattle.array.specs.Planning.{Assigned, Built, Lying, Plans, Shared, FillsGroup, slot_view};

use crate::extents::{all_inside, all_on_bus, fields_fit, rows_in};
use crate::kind::MethodKind;
use crate::refusal::{Fault, Refusal, Refused, ensure};
use crate::scan::is_free;
use crate::slot::GroupSlot;
use crate::tables::Array;
use bus::Bus;
use group::fault::GroupFault;
use group::fill::fill;
use group::record::Group;
use layout::extent::{Extent, ExtentRow};

// Whether a member of the group, if there is one, shares a block with the extent.
fn shares(entry: &Option<GroupSlot>, e: &Extent) -> bool
    ensures { IsTrue result ↔ Shared e.now.row (slot_view entry.now) }
{
    let Some(slot) = entry else {
        return false;
    };
    let count = slot.group.geometry().rows();
    slot.group.active().iter().any(|m| {
        let held = Extent::new(ExtentRow {
            drive: m.drive,
            start: m.start,
            count,
        });
        held.is_some_and(|held| e.overlaps(&held))
    })
}

// Whether the extent shares a block with a member of a group.
fn is_assigned(groups: &[Option<GroupSlot>], e: &Extent) -> bool
    ensures { IsTrue result ↔ Assigned (configuration groups.now []) e.now.row }
{
    groups.iter().any(|entry| shares(entry, e))
}

// Whether no extent, as far as the rows are extents, shares a block with a member of a group.
fn are_unassigned(groups: &[Option<GroupSlot>], extents: &[ExtentRow]) -> bool
    ensures { IsTrue result ↔ EachExtent extents.now (λ e. Sound e → Unassigned (configuration groups.now []) e) }
{
    !extents.iter().any(|row| Extent::new(*row).is_some_and(|e| is_assigned(groups, &e)))
}

// The group of these extents with its method; none where two are on one drive.
fn build(kind: MethodKind, g: usize, depth: usize, extents: &[ExtentRow]) -> Option<GroupSlot>
    requires { (GroupFields kind depth extents.now) × (EachExtent extents.now Sound) }
    ensures { MatchOption result (DifferentDrives extents.now → ⊥) (λ s. Built kind g depth extents.now s) }
{
    let geometry = kind
        .geometry(extents.len(), depth, rows_in(extents))
        .unwrap();
    let group = Group::new(g, geometry, extents)?;
    Some(GroupSlot { kind, group })
}

// A fill's fault. Of these only `Failed` is possible where the extents lie on the bus; no From, since of another call they mean
// something else.
fn broken(fault: GroupFault) -> Refused
    ensures { result ≡ broken_by fault }
{
    let GroupFault::Failed {
        group,
        row,
        member,
        fault,
    } = fault
    else {
        return Refusal::Broken.into();
    };
    Refused {
        refusal: Refusal::Broken,
        fault: Some(Fault::OfRow {
            group,
            row,
            member,
            at: fault.at(),
        }),
    }
}

// Sets the blocks of the extents, which become the members of group `g`, to zeros; stops at the first that its drive
// refuses.
fn fill_group<B: Bus>(bus: &mut B, g: usize, extents: &[ExtentRow]) -> Result<(), Refused>
    requires { (EachExtent extents.now Sound) × (Lying (B.Bus.drives bus.old) extents.now) }
    ensures { FillsGroup (B.Bus.drives bus.old) (B.Bus.drives bus.new) g extents.now result }
{
    fill(bus, g, extents).map_err(broken)
}

impl Array {
    // The group to be entered, once all checks before the fill hold.
    fn plan_group<B: Bus>(
        &self,
        bus: &B,
        g: usize,
        code: usize,
        depth: usize,
        extents: &[ExtentRow],
    ) -> Result<GroupSlot, Refused>
        ensures { Plans (B.Bus.drives bus.now) (config self.now) g code depth extents.now result }
    {
        let kind = MethodKind::try_from(code)?;
        ensure(fields_fit(kind, depth, extents), Refusal::Field)?;
        ensure(all_on_bus(bus, extents), Refusal::NoDrive)?;
        ensure(is_free(&self.groups, g), Refusal::NotConfigured)?;
        ensure(all_inside(bus, extents), Refusal::Outside)?;
        ensure(are_unassigned(&self.groups, extents), Refusal::Conflict)?;
        let slot = build(kind, g, depth, extents).ok_or(Refusal::Conflict)?;
        Ok(slot)
    }

    // The code stays a number, and the extents plain rows: what is wrong with them is refused here, in its turn among the
    // checks. The four are no struct: they are the fields of a call, and each check asks two of them.

    /// Makes group `g` by the method with this code, at this depth, on these extents, and sets all their blocks to zeros.
    /// Where it is refused nothing is configured; where a drive broke, blocks of the extents may be zeros.
    pub fn make_group<B: Bus>(
        &mut self,
        bus: &mut B,
        g: usize,
        code: usize,
        depth: usize,
        extents: &[ExtentRow],
    ) -> Result<(), Refused>
        ensures { MakesGroup (B.Bus.drives bus.old) (B.Bus.drives bus.new) (config self.old) (config self.new) g code depth extents.now result }
    {
        let slot = self.plan_group(bus, g, code, depth, extents)?;
        fill_group(bus, g, extents)?;
        self.groups[g] = Some(slot);
        Ok(())
    }
}
