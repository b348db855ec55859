ghost use Rattle.std.specs.Prelude.{◌≡◌, length, replicate, None, Ok};
ghost use Rattle.bus.specs.Requests.{Reads, Writes};
ghost use Rattle.buses.specs.Breaking.{gone, fewer, left_of, marked, sound_marked, Told, Breaks, Counts, FailsAsTold, Stops};

use crate::misfit::Misfit;
use bus::{BLOCK, BlockAddress, Bus, BusFault, MOST_DRIVES};

// Any bus, whose drives break when told to.
#[derive(Drop)]
pub struct BreakingBus<B: Bus> {
    below: B,
    // For each drive the accesses it has left, where it was told to break; with 0 left it is broken.
    left: [Option<usize>; MOST_DRIVES],
}

fn is_gone(left: Option<usize>) -> bool
    ensures { result ≡ gone left }
{
    matches!(left, Some(0))
}

// What is left after one access more.
fn one_fewer(left: Option<usize>) -> Option<usize>
    ensures { result ≡ fewer left }
{
    left.map(|n| n.saturating_sub(1))
}

impl<B: Bus> BreakingBus<B> {
    // Every bus fits: what a bus is bounds its count and its capacities.
    pub fn fit(_below: &B) -> Result<(), Misfit>
        ensures { result ≡ Ok tt }
    {
        Ok(())
    }

    #[tactic(auto, using(crate::proofs::Marking::marked_untold))]
    pub fn new(below: B) -> BreakingBus<B>
        ensures below { result.below ≡ below }
        ensures drives { marked (B.Bus.drives result.below) result.left ≡ B.Bus.drives below }
        ensures untold { result.left ≡ replicate 16 None }
    {
        BreakingBus {
            below,
            left: [None; MOST_DRIVES],
        }
    }

    pub fn below(&self) -> &B
        ensures { result.now ≡ self.now.below }
    {
        &self.below
    }

    // What the drive `d` has left, where it was told to break.
    fn left_of(&self, d: usize) -> Option<usize>
        ensures { result ≡ left_of self.now.left d }
    {
        self.left.get(d).copied().flatten()
    }

    // Tells the drive `d` to break in the `n`-th next read or write that reaches it, at once where `n` is 0.
    // A later word counts in place of an earlier one, but mends nothing.
    pub fn break_in(&mut self, d: usize, n: usize) -> Result<(), BusFault>
        ensures told { Told (B.Bus.drives self.old.below) self.old.left self.new.left d n result }
        ensures below { self.new.below ≡ self.old.below }
    {
        if d >= self.below.count() {
            return Err(BusFault::NoDrive(BlockAddress { drive: d, block: 0 }));
        }
        if !is_gone(self.left[d]) {
            self.left[d] = Some(n);
        }
        Ok(())
    }

    // Breaks the drive `d`.
    #[tactic(auto, using(crate::proofs::Marking::breaks_told))]
    pub fn break_now(&mut self, d: usize) -> Result<(), BusFault>
        ensures breaks { Breaks (marked (B.Bus.drives self.old.below) self.old.left) (marked (B.Bus.drives self.new.below) self.new.left) d result }
        ensures below { self.new.below ≡ self.old.below }
    {
        self.break_in(d, 0)
    }

    // Counts a request that reaches its drive, and refuses it where the drive has nothing left then.
    fn access(&mut self, at: BlockAddress, len: usize) -> Result<(), BusFault>
        ensures stops { Stops (B.Bus.drives self.old.below) self.old.left self.new.left at.drive at.block len result }
        ensures below { self.new.below ≡ self.old.below }
    {
        if len != BLOCK || at.block >= self.below.capacity(at.drive) {
            return Ok(());
        }
        let left = one_fewer(self.left[at.drive]);
        self.left[at.drive] = left;
        if is_gone(left) {
            return Err(BusFault::Broken(at));
        }
        Ok(())
    }
}

impl<B: Bus> Bus for BreakingBus<B> {
    ghost drives = { λ k. marked (B.Bus.drives k.below) k.left };

    ghost sound = { λ k. sound_marked (B.Bus.drives k.below) k.left (B.Bus.sound k.below) };

    #[tactic(auto, using(crate::specs::Breaking::count_marked))]
    fn count(&self) -> usize {
        self.below.count()
    }

    #[tactic(auto, using(crate::specs::Breaking::size_marked))]
    fn capacity(&self, d: usize) -> usize {
        self.below.capacity(d)
    }

    fn broken(&self, d: usize) -> bool {
        self.below.broken(d) || is_gone(self.left_of(d))
    }

    // A read and a write, as in `Bus`: their buffers are lent in two ways.

    fn read(&mut self, at: BlockAddress, buf: &mut [u8]) -> Result<(), BusFault>
        ensures reads { Reads (marked (B.Bus.drives self.old.below) self.old.left) (marked (B.Bus.drives self.new.below) self.new.left) at.drive at.block buf.old buf.new result }
        ensures counts { Counts (B.Bus.drives self.old.below) (B.Bus.drives self.new.below) self.old.left self.new.left at.drive at.block (length buf.old) }
        ensures fails { FailsAsTold (B.Bus.drives self.old.below) (B.Bus.drives self.new.below) self.old.left self.new.left at.drive }
    {
        self.access(at, buf.len())?;
        self.below.read(at, buf)
    }

    fn write(&mut self, at: BlockAddress, bytes: &[u8]) -> Result<(), BusFault>
        ensures writes { Writes (marked (B.Bus.drives self.old.below) self.old.left) (marked (B.Bus.drives self.new.below) self.new.left) at.drive at.block bytes.now result }
        ensures counts { Counts (B.Bus.drives self.old.below) (B.Bus.drives self.new.below) self.old.left self.new.left at.drive at.block (length bytes.now) }
        ensures fails { FailsAsTold (B.Bus.drives self.old.below) (B.Bus.drives self.new.below) self.old.left self.new.left at.drive }
    {
        self.access(at, bytes.len())?;
        self.below.write(at, bytes)
    }
}
