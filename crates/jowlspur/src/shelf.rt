// The bus that a script works on: two memory buses joined, under a breaking bus.
ghost use Rattle.std.specs.Prelude.{◌≡◌, IfOk};
ghost use Rattle.bus.specs.Requests.{Reads};
ghost use Rattle.buses.specs.Memory.{memory_drives};
ghost use Rattle.jowlspur.specs.Shelves.{behind, on, kept, stocked, Takes, Fits, untouched, Stocked, Made};
ghost use Rattle.jowlspur.specs.declared.shelf.Unmade.TheVariants.{Unfit, NoMemory};

use bus::{BLOCK, BlockAddress, Bus, BusFault, MOST_DRIVES};
use buses::{BreakingBus, Drives, JoinedBus, MemoryBus, Misfit};
use std::alloc::{AllocError, Global};

pub type Shelf<'a> = BreakingBus<JoinedBus<MemoryBus<'a>, MemoryBus<'a>>>;

// The drives of a script's bus: those of the two buses that it joins.
#[derive(Clone, Copy, PartialEq, Eq, Debug)]
pub struct BusDrives {
    pub first: Drives,
    pub second: Drives,
}

// Why there is no memory for a script's drives.
#[derive(Clone, Copy, PartialEq, Eq, Debug)]
pub enum Unmade {
    // They fit no bus.
    Unfit(Misfit),
    NoMemory,
}

impl From<Misfit> for Unmade {
    ghost from_gives = { λ misfit unmade. unmade ≡ Unfit misfit };

    fn from(misfit: Misfit) -> Unmade {
        Unmade::Unfit(misfit)
    }
}

impl From<AllocError> for Unmade {
    ghost from_gives = { λ _ unmade. unmade ≡ NoMemory };

    fn from(_: AllocError) -> Unmade {
        Unmade::NoMemory
    }
}

// The bytes that drives take.
fn size_of_drives(drives: Drives) -> Result<usize, Misfit>
    ensures { Takes drives.number drives.capacity result }
{
    let size = drives
        .number
        .saturating_mul(drives.capacity)
        .saturating_mul(BLOCK);
    MemoryBus::fit(size, drives)?;
    Ok(size)
}

// Whether the drives fit a bus.
fn fit(drives: BusDrives) -> Result<(), Misfit>
    ensures { Fits drives result }
{
    size_of_drives(drives.first)?;
    size_of_drives(drives.second)?;
    if drives.first.number.saturating_add(drives.second.number) > MOST_DRIVES {
        return Err(Misfit::Count);
    }
    Ok(())
}

// Bytes that were never written: each is a5.
pub fn fresh(heap: Global, size: usize) -> Result<Vec<u8>, AllocError>
    ensures { IfOk result (λ v. v.items ≡ untouched size) }
{
    vec![in heap; 0xa5u8; size]
}

// Drives, and the bytes that they fill.
#[derive(Drop)]
pub struct Bank {
    drives: Drives,
    bytes: Vec<u8>,
}

impl Bank {
    fn new(heap: Global, drives: Drives) -> Result<Bank, Unmade>
        ensures { Stocked drives result }
    {
        let size = size_of_drives(drives)?;
        let bytes = fresh(heap, size)?;
        Ok(Bank { drives, bytes })
    }

    fn bus(&mut self) -> MemoryBus<'_>
        ensures { memory_drives result ≡ stocked self.old }
    {
        MemoryBus::new(self.bytes.as_mut_slice(), self.drives)
    }
}

// The memory of a script's drives.
#[derive(Drop)]
pub struct Memory {
    first: Bank,
    second: Bank,
}

impl Memory {
    // Memory for new drives, where they fit a bus.
    pub fn for_drives(heap: Global, drives: BusDrives) -> Result<Memory, Unmade>
        ensures { Made drives result }
    {
        fit(drives)?;
        let first = Bank::new(heap, drives.first)?;
        let second = Bank::new(heap, drives.second)?;
        Ok(Memory { first, second })
    }

    pub fn shelf(&mut self) -> Shelf<'_>
        ensures behind { behind result ≡ kept self.old }
        ensures unbroken { on result ≡ kept self.old }
    {
        let first = self.first.bus();
        let second = self.second.bus();
        BreakingBus::new(JoinedBus::new(first, second))
    }
}

// The block `at`, its drive broken or not; a joined bus reads only as a bus, which is asked here for its two sides.
pub fn raw(shelf: &Shelf, at: BlockAddress, buf: &mut [u8]) -> Result<(), BusFault>
    ensures { Reads (behind shelf.now) (behind shelf.now) at.drive at.block buf.old buf.new result }
{
    let memories = shelf.below();
    if at.drive >= memories.count() {
        return Err(BusFault::NoDrive(at));
    }
    let n = memories.first().count();
    if at.drive < n {
        memories.first().peek(at, buf)
    } else {
        let below = BlockAddress {
            drive: at.drive - n,
            ..at
        };
        let read = memories.second().peek(below, buf);
        read.map_err(|fault| fault.at_drive(at.drive))
    }
}
