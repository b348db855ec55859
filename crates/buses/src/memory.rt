ghost use Rattle.std.specs.Prelude.{◌≡◌, ◌+◌, ◌*◌, ◌^◌, ◌<◌, ◌≤◌, length};
ghost use Rattle.bus.specs.Requests.{Reads, Writes};
ghost use Rattle.buses.specs.Fitting.{FitsMemory, fitting, sound_fitting};
ghost use Rattle.buses.specs.Memory.{held, memory_drives, Locates, Refuses, Unbroken, Overwrites};

use crate::misfit::Misfit;
use bus::{BLOCK, BlockAddress, Bus, BusFault, MOST_BLOCKS, MOST_DRIVES};

// Drives of one capacity.
#[derive(Clone, Copy, PartialEq, Eq, Debug)]
pub struct Drives {
    pub number: usize,
    // The blocks of each.
    pub capacity: usize,
}

// Where the block `at` of drives of `capacity` blocks begins.
fn start_of(capacity: usize, at: BlockAddress) -> usize
    requires few { at.drive < 16 }
    requires small { capacity ≤ 65536 }
    requires within { at.block < capacity }
    ensures value { result ≡ (at.drive * capacity + at.block) * 512 }
    ensures bound { result < 2 ^ 32 }
{
    (at.drive * capacity + at.block) * BLOCK
}

// Whether a request with `len` bytes reaches one of `drives`, or what is wrong with it, in the order in which it is asked.
// `at` and `len` are no struct: who asks has the buffer itself.
fn reach(drives: Drives, at: BlockAddress, len: usize) -> Result<(), BusFault>
    ensures { Refuses drives.number drives.capacity at.drive at.block len result }
{
    if at.drive >= drives.number {
        return Err(BusFault::NoDrive(at));
    }
    if len != BLOCK {
        return Err(BusFault::Length(at));
    }
    if at.block >= drives.capacity {
        return Err(BusFault::Range(at));
    }
    Ok(())
}

// Drives of one capacity in memory that the caller lends and gets back; they never break.
// One whose drives don't fill the memory exactly has no drive.
// That they fill it is no invariant of the type, since `new` takes any memory and drives, and can't fail.
#[derive(Drop)]
pub struct MemoryBus<'a> {
    bytes: &'a mut [u8],
    drives: Drives,
}

impl<'a> MemoryBus<'a> {
    // Whether `drives` fill `len` bytes, asked before a bus is made.
    pub fn fit(len: usize, drives: Drives) -> Result<(), Misfit>
        ensures { FitsMemory len drives.number drives.capacity result }
    {
        if drives.number > MOST_DRIVES {
            return Err(Misfit::Count);
        }
        if drives.capacity < 1 || drives.capacity > MOST_BLOCKS {
            return Err(Misfit::Capacity);
        }
        if len != drives.number * drives.capacity * BLOCK {
            return Err(Misfit::Bytes);
        }
        Ok(())
    }

    pub fn new(bytes: &'a mut [u8], drives: Drives) -> MemoryBus<'a>
        ensures bytes { result.bytes.now ≡ bytes.old }
        ensures drives { result.drives ≡ drives }
        ensures named { result.bytes.ghost_name ≡ bytes.entry.ghost_name }
    {
        MemoryBus { bytes, drives }
    }

    // The drives there are: all, or none where they don't fit.
    fn present(&self) -> usize
        ensures { result ≡ fitting (length self.now.bytes.now) self.now.drives.number self.now.drives.capacity }
    {
        if MemoryBus::fit(self.bytes.len(), self.drives).is_ok() {
            self.drives.number
        } else {
            0
        }
    }

    // Where the block of a request with `len` bytes begins, or why there is none.
    fn locate(&self, at: BlockAddress, len: usize) -> Result<usize, BusFault>
        ensures { Locates self.now.bytes.now self.now.drives.number self.now.drives.capacity at.drive at.block len result }
    {
        let drives = Drives {
            number: self.present(),
            ..self.drives
        };
        reach(drives, at, len)?;
        Ok(start_of(drives.capacity, at))
    }

    // The block `at`, for who may only look.
    pub fn peek(&self, at: BlockAddress, buf: &mut [u8]) -> Result<(), BusFault>
        ensures reads { Reads (memory_drives self.now) (memory_drives self.now) at.drive at.block buf.old buf.new result }
        ensures unbroken { Unbroken result }
    {
        let a = self.locate(at, buf.len())?;
        buf.copy_from_slice(&self.bytes[a..a + BLOCK]);
        Ok(())
    }
}

impl<'a> Bus for MemoryBus<'a> {
    ghost drives = { memory_drives };

    ghost sound = { λ m. sound_fitting m.bytes.now m.drives.number m.drives.capacity };

    #[tactic(auto, using(crate::specs::Images::count_is))]
    fn count(&self) -> usize {
        self.present()
    }

    #[tactic(auto, using(crate::specs::Images::size_is, crate::specs::Images::at_beyond))]
    fn capacity(&self, d: usize) -> usize {
        let n = self.present();
        if d < n { self.drives.capacity } else { 0 }
    }

    fn broken(&self, d: usize) -> bool {
        d >= self.present()
    }

    fn read(&mut self, at: BlockAddress, buf: &mut [u8]) -> Result<(), BusFault>
        ensures reads { Reads (memory_drives self.old) (memory_drives self.new) at.drive at.block buf.old buf.new result }
        ensures unbroken { Unbroken result }
        ensures same { self.new.bytes.now ≡ self.old.bytes.now }
        ensures named { self.new.bytes.ghost_name ≡ self.old.bytes.ghost_name }
        ensures drives { self.new.drives ≡ self.old.drives }
    {
        self.peek(at, buf)
    }

    fn write(&mut self, at: BlockAddress, bytes: &[u8]) -> Result<(), BusFault>
        ensures writes { Writes (memory_drives self.old) (memory_drives self.new) at.drive at.block bytes.now result }
        ensures unbroken { Unbroken result }
        ensures after { Overwrites self.old.bytes.now self.new.bytes.now self.old.drives.capacity at.drive at.block bytes.now result }
        ensures named { self.new.bytes.ghost_name ≡ self.old.bytes.ghost_name }
        ensures drives { self.new.drives ≡ self.old.drives }
    {
        let a = self.locate(at, bytes.len())?;
        self.bytes[a..a + BLOCK].copy_from_slice(bytes);
        Ok(())
    }
}

// One write to the drives in `memory`, which is known to its owner afterwards.
pub fn write_image(
    memory: &mut [u8],
    drives: Drives,
    at: BlockAddress,
    bytes: &[u8],
) -> Result<(), BusFault>
    ensures writes { Writes (held memory.old drives.number drives.capacity) (held memory.new drives.number drives.capacity) at.drive at.block bytes.now result }
    ensures after { Overwrites memory.old memory.new drives.capacity at.drive at.block bytes.now result }
{
    MemoryBus::new(memory, drives).write(at, bytes)
}
