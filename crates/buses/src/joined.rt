ghost use Rattle.std.specs.Prelude.{◌≡◌};
ghost use Rattle.bus.specs.Requests.{Reads, Writes};
ghost use Rattle.buses.specs.Joined.{joined, sound_joined, FitsJoined, Lies, FailsBelow};

use crate::misfit::Misfit;
use bus::{BlockAddress, Bus, BusFault, MOST_DRIVES};

// Two buses as one: the drives of the second are numbered after those of the first.
// One with more than 16 drives has none.
#[derive(Drop)]
pub struct JoinedBus<A: Bus, B: Bus> {
    first: A,
    second: B,
}

// Which of the two buses a drive is of; no Option of a number, since the first bus is no absence.
#[derive(Clone, Copy, PartialEq, Eq, Debug)]
enum Side {
    // The first, with the same number.
    First,
    // The second, with its number there, or a number beyond it.
    Second(usize),
}

impl<A: Bus, B: Bus> JoinedBus<A, B> {
    // Whether the two have at most 16 drives, asked before they are joined.
    pub fn fit(first: &A, second: &B) -> Result<(), Misfit>
        ensures { FitsJoined (A.Bus.drives first.now) (B.Bus.drives second.now) result }
    {
        if first.count() + second.count() > MOST_DRIVES {
            return Err(Misfit::Count);
        }
        Ok(())
    }

    pub fn new(first: A, second: B) -> JoinedBus<A, B>
        ensures first { result.first ≡ first }
        ensures second { result.second ≡ second }
    {
        JoinedBus { first, second }
    }

    pub fn first(&self) -> &A
        ensures { result.now ≡ self.now.first }
    {
        &self.first
    }

    pub fn second(&self) -> &B
        ensures { result.now ≡ self.now.second }
    {
        &self.second
    }

    // None where there are too many drives.
    fn side(&self, d: usize) -> Option<Side>
        ensures { Lies (A.Bus.drives self.now.first) (B.Bus.drives self.now.second) d result }
    {
        let n = self.first.count();
        if n + self.second.count() > MOST_DRIVES {
            return None;
        }
        Some(if d < n {
            Side::First
        } else {
            Side::Second(d - n)
        })
    }
}

impl<A: Bus, B: Bus> Bus for JoinedBus<A, B> {
    ghost drives = { λ j. joined (A.Bus.drives j.first) (B.Bus.drives j.second) };

    ghost sound = { λ j. sound_joined (A.Bus.drives j.first) (B.Bus.drives j.second) (A.Bus.sound j.first) (B.Bus.sound j.second) };

    #[tactic(auto, using(crate::specs::Joined::count_all, crate::specs::Joined::count_none))]
    fn count(&self) -> usize {
        let n = self.first.count() + self.second.count();
        if n > MOST_DRIVES { 0 } else { n }
    }

    // Three cases in four functions: each asks its own bus by another call, with its own answer where there are too many drives.

    fn capacity(&self, d: usize) -> usize {
        match self.side(d) {
            Some(Side::First) => self.first.capacity(d),
            Some(Side::Second(e)) => self.second.capacity(e),
            None => 0,
        }
    }

    fn broken(&self, d: usize) -> bool {
        match self.side(d) {
            Some(Side::First) => self.first.broken(d),
            Some(Side::Second(e)) => self.second.broken(e),
            None => true,
        }
    }

    fn read(&mut self, at: BlockAddress, buf: &mut [u8]) -> Result<(), BusFault>
        ensures reads { Reads (joined (A.Bus.drives self.old.first) (B.Bus.drives self.old.second)) (joined (A.Bus.drives self.new.first) (B.Bus.drives self.new.second)) at.drive at.block buf.old buf.new result }
        ensures fails { FailsBelow (A.Bus.drives self.old.first) (B.Bus.drives self.old.second) (A.Bus.drives self.new.first) (B.Bus.drives self.new.second) }
    {
        match self.side(at.drive) {
            Some(Side::First) => self.first.read(at, buf),
            Some(Side::Second(e)) => {
                let read = self.second.read(BlockAddress { drive: e, ..at }, buf);
                read.map_err(|fault| fault.at_drive(at.drive))
            }
            None => Err(BusFault::NoDrive(at)),
        }
    }

    fn write(&mut self, at: BlockAddress, bytes: &[u8]) -> Result<(), BusFault>
        ensures writes { Writes (joined (A.Bus.drives self.old.first) (B.Bus.drives self.old.second)) (joined (A.Bus.drives self.new.first) (B.Bus.drives self.new.second)) at.drive at.block bytes.now result }
        ensures fails { FailsBelow (A.Bus.drives self.old.first) (B.Bus.drives self.old.second) (A.Bus.drives self.new.first) (B.Bus.drives self.new.second) }
    {
        match self.side(at.drive) {
            Some(Side::First) => self.first.write(at, bytes),
            Some(Side::Second(e)) => {
                let written = self.second.write(BlockAddress { drive: e, ..at }, bytes);
                written.map_err(|fault| fault.at_drive(at.drive))
            }
            None => Err(BusFault::NoDrive(at)),
        }
    }
}
