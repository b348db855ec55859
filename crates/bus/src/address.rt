// A block of a drive, by their numbers, which count from 0.
#[derive(Clone, Copy, PartialEq, Eq, Debug)]
pub struct BlockAddress {
    pub drive: usize,
    pub block: usize,
}
