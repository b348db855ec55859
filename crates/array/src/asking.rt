//! What an array is asked that needs no drive: its volume sets, their sizes, and where their blocks lie.
ghost use Rattle.std.specs.Prelude.{◌≡◌, ◌<◌};
ghost use Rattle.array.specs.Arrays.{config};
ghost use Rattle.array.specs.Calls.{Asked};
ghost use Rattle.array.specs.Checks.{group_number_checks, size_checks, map_checks, block_checks};
ghost use Rattle.array.specs.Configuration.{volume_at, volume_view, group_view};
ghost use Rattle.array.specs.Finding.{SlotAt, FoundAt, PlacedAt};
ghost use Rattle.array.specs.Places.{blocks_of, size_of, home_block, mapped};

use crate::refusal::{Refusal, Refused, ensure};
use crate::scan::entry;
use crate::slot::GroupSlot;
use crate::spots::{count_blocks, find_spot};
use crate::tables::Array;
use crate::volume::{Volume, VolumeBlock};
use bus::{BLOCK, BlockAddress};

// A protected block, with its group.
#[derive(Clone, Copy)]
pub(crate) struct Found<'a> {
    pub(crate) slot: &'a GroupSlot,
    pub(crate) block: usize,
}

impl GroupSlot {
    // The drive block that is the home of protected block `q`.
    fn home_block(&self, q: usize) -> BlockAddress
        requires { q < size_of (group_view self.now) }
        ensures { PlacedAt (home_block (group_view self.now) q) result }
    {
        let place = self.kind.locate(&self.group.geometry(), q).unwrap();
        let member = self.group.active()[place.member];
        BlockAddress {
            drive: member.drive,
            block: member.start + place.row,
        }
    }
}

impl Array {
    // This and the next are two functions, since each promises the checks of its own table.

    // The volume set of this number.
    pub(crate) fn volume(&self, v: usize) -> Result<&Volume, Refused>
        ensures { Asked (size_checks (config self.now) v) (λ x. volume_view x.now ≡ volume_at (config self.now) v) result }
    {
        Ok(entry(&self.volumes, v).ok_or(Refusal::NotConfigured)?)
    }

    // The group of this number.
    pub(crate) fn slot(&self, g: usize) -> Result<&GroupSlot, Refused>
        ensures { Asked (group_number_checks (config self.now) g) (λ s. SlotAt (config self.now) g s.now) result }
    {
        Ok(entry(&self.groups, g).ok_or(Refusal::NotConfigured)?)
    }

    // The protected block that is this block of a volume set.
    fn find(&self, at: VolumeBlock) -> Result<Found, Refused>
        ensures { Asked (map_checks (config self.now) at.volume at.block) (λ f. FoundAt (config self.now) at.volume at.block f.slot.now f.block) result }
    {
        let volume = self.volume(at.volume)?;
        let spot = find_spot(volume.active(), at.block).ok_or(Refusal::Outside)?;
        let slot = self.slot(spot.group)?;
        Ok(Found {
            slot,
            block: spot.block,
        })
    }

    // The same, for a buffer of `len` bytes.
    pub(crate) fn admit(&self, at: VolumeBlock, len: usize) -> Result<Found, Refused>
        ensures { Asked (block_checks (config self.now) at.volume at.block len) (λ f. FoundAt (config self.now) at.volume at.block f.slot.now f.block) result }
    {
        self.volume(at.volume)?;
        ensure(len >= BLOCK, Refusal::ShortBuffer)?;
        self.find(at)
    }

    /// How many blocks the volume set has.
    pub fn size(&self, v: usize) -> Result<usize, Refused>
        ensures { Asked (size_checks (config self.now) v) (λ n. n ≡ blocks_of (config self.now) v) result }
    {
        let volume = self.volume(v)?;
        Ok(count_blocks(volume.active()))
    }

    /// The drive block that is the home of a block of a volume set.
    pub fn map(&self, at: VolumeBlock) -> Result<BlockAddress, Refused>
        ensures { Asked (map_checks (config self.now) at.volume at.block) (λ p. (p.drive ≡ (mapped (config self.now) at.volume at.block).drive) × (p.block ≡ (mapped (config self.now) at.volume at.block).at)) result }
    {
        let found = self.find(at)?;
        Ok(found.slot.home_block(found.block))
    }
}
