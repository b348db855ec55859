ghost use Rattle.std.specs.Prelude.{◌≡◌, List, length};
ghost use Rattle.bus.specs.Drives.{Drive, Sound, at, size};
ghost use Rattle.bus.specs.Requests.{Reads, Writes};

use crate::address::BlockAddress;
use crate::fault::BusFault;

// Drives numbered from 0, of blocks of 512 bytes.
pub trait Bus {
    // The drives, with what each holds and whether it is broken.
    ghost drives: { Self → List Drive };

    fn count(&self) -> usize
        ensures { result ≡ length (drives self.now) };

    // The blocks of the drive `d`; 0 where there is no such drive.
    fn capacity(&self, d: usize) -> usize
        ensures { result ≡ size (drives self.now) d };

    // Whether the drive `d` is broken; `true` where there is no such drive.
    fn broken(&self, d: usize) -> bool
        ensures { result ≡ (at (drives self.now) d).broken };

    // Fills `buf`, which is one block long, with the block `at`.
    fn read(&mut self, at: BlockAddress, buf: &mut [u8]) -> Result<(), BusFault>
        ensures { Reads (drives self.old) (drives self.new) at.drive at.block buf.old buf.new result };

    // Replaces the block `at` by `bytes`, which are one block.
    fn write(&mut self, at: BlockAddress, bytes: &[u8]) -> Result<(), BusFault>
        ensures { Writes (drives self.old) (drives self.new) at.drive at.block bytes.now result };

    // At most 16 drives of 1 to 65,536 blocks each.
    ghost sound: { (x : Self) → Sound (drives x) };
}

// A bus that is lent is a bus.
impl<'b, B: Bus> Bus for &'b mut B {
    ghost drives = { λ s. B.Bus.drives s.now };

    ghost sound = { λ s. B.Bus.sound s.now };

    fn count(&self) -> usize {
        (**self).count()
    }

    fn capacity(&self, d: usize) -> usize {
        (**self).capacity(d)
    }

    fn broken(&self, d: usize) -> bool {
        (**self).broken(d)
    }

    // A read and a write are two functions, here and in every bus: the one is lent its buffer to fill, the other to look at.

    fn read(&mut self, at: BlockAddress, buf: &mut [u8]) -> Result<(), BusFault> {
        (**self).read(at, buf)
    }

    fn write(&mut self, at: BlockAddress, bytes: &[u8]) -> Result<(), BusFault> {
        (**self).write(at, bytes)
    }
}
