// One trial: a group on drives of its own, of which one dies in one of its accesses.
use crate::tally::Tally;
use bus::{BLOCK, BlockAddress, Bus};
use buses::{BreakingBus, MemoryBus};
use group::fault::GroupFault;
use group::fill::fill;
use group::record::Group;
use layout::extent::ExtentRow;
use layout::method::Method;
use std::marker::PhantomData;

pub type TrialBus<'a> = BreakingBus<MemoryBus<'a>>;

// What every byte is that no request has written.
pub const UNTOUCHED: u8 = 0xa5;

#[derive(Drop)]
pub struct Trial<'e, 'm, M> {
    pub group: Group,
    pub extents: &'e [ExtentRow],
    pub bus: TrialBus<'m>,
    // The drive that dies, and in which of its accesses: 0 is before the first.
    pub dead: usize,
    pub access: usize,
    // What each protected block is full of.
    pub expected: Vec<u8>,
    pub tally: Tally,
    pub method: PhantomData<M>,
}

fn all_are(bytes: &[u8], value: u8) -> bool {
    bytes.iter().all(|b| *b == value)
}

impl<'e, 'm, M: Method> Trial<'e, 'm, M> {
    // From now on the drive has only so many accesses left.
    fn condemn(&mut self) {
        let _ = self.bus.break_in(self.dead, self.access);
    }

    fn fill_group(&mut self) -> Result<(), GroupFault> {
        let answer = fill(&mut self.bus, 0, self.extents);
        self.tally.count(answer);
        answer
    }

    // Writes a value to every protected block; what is expected there is its old value, or the new one if that was accepted.
    fn write_all(&mut self, add: u8) {
        for (q, expected) in self.expected.iter_mut().enumerate() {
            let value = ((q % 100) as u8).wrapping_add(add);
            let answer = self
                .group
                .write::<TrialBus, M>(&mut self.bus, q, &[value; BLOCK]);
            self.tally.count(answer);
            if answer.is_ok() {
                *expected = value;
            }
        }
    }

    // Reads every protected block; a refused read has to leave the buffer alone.
    fn read_all(&mut self) {
        for (q, expected) in self.expected.iter().enumerate() {
            let mut buf = [UNTOUCHED; BLOCK];
            let answer = self.group.read::<TrialBus, M>(&mut self.bus, q, &mut buf);
            self.tally.count(answer);
            let value = if answer.is_ok() { *expected } else { UNTOUCHED };
            self.tally.compare(all_are(&buf, value));
        }
    }

    // Holds a block of a drive against the value that it should be full of, unless the drive dies in the look itself.
    fn look(&mut self, at: BlockAddress, value: u8) {
        let mut buf = [UNTOUCHED; BLOCK];
        if self.bus.read(at, &mut buf).is_ok() {
            self.tally.compare(all_are(&buf, value));
        }
    }

    // The drive dies while the group is filled.
    pub(crate) fn fill(&mut self) {
        self.condemn();
        if self.fill_group().is_ok() {
            for e in self.extents {
                // The blocks of a drive have no slice: their numbers are what is asked for.
                for block in e.start..e.start.saturating_add(e.count) {
                    self.look(
                        BlockAddress {
                            drive: e.drive,
                            block,
                        },
                        0,
                    );
                }
            }
        }
    }

    // The group is filled and all of it read and written; the drive dies while all is written again and read.
    pub(crate) fn blocks(&mut self) {
        let _ = self.fill_group();
        self.read_all();
        self.write_all(1);
        self.condemn();
        self.write_all(101);
        self.read_all();
    }

    // Drive 1 is lost and its member moved to the spare drive behind the members; row 0 is rebuilt while the drive dies.
    // What goes before isn't counted.
    pub(crate) fn rebuild(&mut self) {
        let before = self.tally;
        let _ = self.fill_group();
        self.write_all(1);
        self.tally = before;
        let _ = self.bus.break_now(1);
        let spare = self.extents.len();
        if self.group.move_member(1, spare, 0).is_err() {
            self.tally.compare(false);
            return;
        }
        self.condemn();
        let answer = self.group.rebuild::<TrialBus, M>(&mut self.bus, 1);
        self.tally.count(answer);
        if answer.is_ok() {
            let value = self.expected.first().copied().unwrap_or(0);
            self.look(
                BlockAddress {
                    drive: spare,
                    block: 0,
                },
                value,
            );
        }
    }
}
