// Three buses: drives in lent memory, two buses joined, and a bus whose drives break when told to.
#![tactic(auto)]

pub mod breaking;
pub mod joined;
pub mod memory;
pub mod misfit;

pub use breaking::BreakingBus;
use bus::Bus;
pub use joined::JoinedBus;
pub use memory::{Drives, MemoryBus, write_image};
pub use misfit::Misfit;

#[cfg(test)]
mod tests {
    use super::*;
    use bus::{BlockAddress, Bus, BusFault};

    fn drives(number: usize, capacity: usize) -> Drives {
        Drives { number, capacity }
    }

    fn at(drive: usize, block: usize) -> BlockAddress {
        BlockAddress { drive, block }
    }

    #[test]
    fn fits_at_the_edges(rt: HostRuntime) {
        assert_eq!(rt; MemoryBus::fit(8192, drives(16, 1)), Ok(()));
        assert_eq!(rt; MemoryBus::fit(8704, drives(17, 1)), Err(Misfit::Count));
        assert_eq!(rt; MemoryBus::fit(33554432, drives(1, 65536)), Ok(()));
        assert_eq!(rt;
            MemoryBus::fit(33554944, drives(1, 65537)),
            Err(Misfit::Capacity)
        );
        assert_eq!(rt; MemoryBus::fit(0, drives(1, 0)), Err(Misfit::Capacity));
        assert_eq!(rt; MemoryBus::fit(511, drives(1, 1)), Err(Misfit::Bytes));
        assert_eq!(rt;
            MemoryBus::fit(usize::MAX, drives(usize::MAX, usize::MAX)),
            Err(Misfit::Count)
        );
    }

    #[test]
    fn breaking_over_joined(rt: HostRuntime) {
        let mut left = [0u8; 1024];
        let mut right = [0u8; 512];
        let joined = JoinedBus::new(
            MemoryBus::new(&mut left, drives(2, 1)),
            MemoryBus::new(&mut right, drives(1, 1)),
        );
        let mut bus = BreakingBus::new(joined);
        let mut buf = [7u8; 512];
        assert_eq!(rt; bus.count(), 3);
        assert_eq!(rt; bus.write(at(2, 0), &buf), Ok(()));
        assert_eq!(rt; bus.break_in(2, 2), Ok(()));
        assert_eq!(rt; bus.break_in(3, 1), Err(BusFault::NoDrive(at(3, 0))));
        assert_eq!(rt;
            bus.read(at(2, 1), &mut buf),
            Err(BusFault::Range(at(2, 1)))
        );
        assert_eq!(rt;
            bus.read(at(2, 0), &mut buf[0..511]),
            Err(BusFault::Length(at(2, 0)))
        );
        assert_eq!(rt; bus.read(at(2, 0), &mut buf), Ok(()));
        assert_eq!(rt;
            bus.read(at(2, 0), &mut buf),
            Err(BusFault::Broken(at(2, 0)))
        );
        assert!(rt; bus.broken(2) && !bus.broken(1) && bus.broken(3));
        assert_eq!(rt;
            bus.read(at(usize::MAX, 0), &mut buf),
            Err(BusFault::NoDrive(at(usize::MAX, 0)))
        );
    }

    #[test]
    fn joined_over_breaking(rt: HostRuntime) {
        let mut left = [0u8; 4096];
        let mut right = [1u8; 4608];
        let first = BreakingBus::new(MemoryBus::new(&mut left, drives(8, 1)));
        let second = BreakingBus::new(MemoryBus::new(&mut right, drives(9, 1)));
        assert_eq!(rt; JoinedBus::fit(&first, &second), Err(Misfit::Count));
        let bus = JoinedBus::new(first, second);
        assert_eq!(rt; bus.count(), 0);
        assert_eq!(rt; bus.capacity(0), 0);
        assert!(rt; bus.broken(0));
    }

    #[test]
    fn faults_below_are_renumbered(rt: HostRuntime) {
        let mut left = [0u8; 512];
        let mut right = [1u8; 1024];
        let mut second = BreakingBus::new(MemoryBus::new(&mut right, drives(2, 1)));
        assert_eq!(rt; second.break_now(1), Ok(()));
        let mut bus = JoinedBus::new(MemoryBus::new(&mut left, drives(1, 1)), second);
        let mut buf = [7u8; 512];
        assert_eq!(rt; bus.write(at(2, 0), &buf), Err(BusFault::Broken(at(2, 0))));
        assert_eq!(rt; bus.write(at(3, 0), &buf), Err(BusFault::NoDrive(at(3, 0))));
        assert_eq!(rt; bus.read(at(1, 0), &mut buf), Ok(()));
        assert!(rt; buf[511] == 1);
    }
}
