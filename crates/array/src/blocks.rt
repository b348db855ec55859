//! Reading and writing blocks of volume sets.
ghost use Rattle.std.specs.Prelude.{◌≡◌};
ghost use Rattle.group.specs.Record.{Reads, Writes};
ghost use Rattle.array.specs.Arrays.{config};
ghost use Rattle.array.specs.Calls.{OnDrives, ReadsBlock, WritesBlock};
ghost use Rattle.array.specs.Blaming.{blamed};
ghost use Rattle.array.specs.Kinds.{method};

use crate::kind::MethodKind;
use crate::refusal::{Fault, Refusal, Refused, ensure};
use crate::slot::GroupSlot;
use crate::tables::Array;
use crate::volume::VolumeBlock;
use bus::Bus;
use group::fault::GroupFault;
use layout::mirror::Mirror;
use layout::parity::Parity;
use layout::unprotected::Unprotected;

impl VolumeBlock {
    // A group's fault, seen from this block. A lost row is refused by `lost`. Of the other faults only `Outside` is
    // possible, where an extent does not lie on its drive: the array is used with another bus than the one that it was
    // configured on.
    fn blame(self, lost: Refusal, fault: GroupFault) -> Refused
        ensures { result ≡ blamed self lost fault }
    {
        let GroupFault::Lost {
            group,
            row,
            member,
            at,
        } = fault
        else {
            return Refusal::Outside.into();
        };
        Refused {
            refusal: lost,
            fault: Some(Fault::OfBlock {
                of: self,
                group,
                row,
                member,
                at,
            }),
        }
    }
}

impl GroupSlot {
    // Reads protected block `q` by the group's method.
    fn read<B: Bus>(&self, bus: &mut B, q: usize, buf: &mut [u8]) -> Result<(), GroupFault>
        ensures { Reads (method self.now.kind) (B.Bus.drives bus.old) (B.Bus.drives bus.new) self.now.group q buf.old buf.new result }
    {
        match self.kind {
            MethodKind::NoRedundancy => self.group.read::<B, Unprotected>(bus, q, buf),
            MethodKind::Copy => self.group.read::<B, Mirror>(bus, q, buf),
            MethodKind::Xor => self.group.read::<B, Parity>(bus, q, buf),
        }
    }

    // Writes protected block `q` by the group's method.
    fn write<B: Bus>(&self, bus: &mut B, q: usize, bytes: &[u8]) -> Result<(), GroupFault>
        ensures { Writes (method self.now.kind) (B.Bus.drives bus.old) (B.Bus.drives bus.new) self.now.group q bytes.now result }
    {
        match self.kind {
            MethodKind::NoRedundancy => self.group.write::<B, Unprotected>(bus, q, bytes),
            MethodKind::Copy => self.group.write::<B, Mirror>(bus, q, bytes),
            MethodKind::Xor => self.group.write::<B, Parity>(bus, q, bytes),
        }
    }
}

impl Array {
    /// Reads a block of a volume set into the first 512 bytes of `buf`, on a bus on which the configured extents lie.
    pub fn read<B: Bus>(&self, bus: &mut B, at: VolumeBlock, buf: &mut [u8]) -> Result<(), Refused>
        ensures { OnDrives (B.Bus.drives bus.old) (config self.now) → ReadsBlock (B.Bus.drives bus.old) (B.Bus.drives bus.new) (config self.now) at.volume at.block buf.old buf.new result }
    {
        let found = self.admit(at, buf.len())?;
        found
            .slot
            .read(bus, found.block, buf)
            .map_err(|fault| at.blame(Refusal::LostReading, fault))
    }

    /// Writes the first 512 of `bytes` to a block of a volume set, on a bus on which the configured extents lie.
    pub fn write<B: Bus>(&self, bus: &mut B, at: VolumeBlock, bytes: &[u8]) -> Result<(), Refused>
        ensures { OnDrives (B.Bus.drives bus.old) (config self.now) → WritesBlock (B.Bus.drives bus.old) (B.Bus.drives bus.new) (config self.now) at.volume at.block bytes.now result }
    {
        let volume = self.volume(at.volume)?;
        let found = self.admit(at, bytes.len())?;
        ensure(volume.writes, Refusal::WritesDisabled)?;
        found
            .slot
            .write(bus, found.block, bytes)
            .map_err(|fault| at.blame(Refusal::LostWriting, fault))
    }
}
