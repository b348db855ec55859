//! The log of a run.
use crate::calls::{Answer, Call};
use bus::MOST_DRIVES;

/// A call with the bytes that its buffer holds.
#[derive(Clone, Copy, PartialEq, Eq, Debug)]
pub struct Request<'a> {
    pub call: Call<'a>,
    pub buffer: &'a [u8],
}

/// A call that was made: what its buffer held, what it answered, what the buffer holds then, and of every drive whether it
/// was broken before and after.
// Each array of marks is one look at the bus, kept as it was taken; pairs of marks would have to be put together from two.
#[derive(PartialEq, Eq, Debug, Drop)]
pub struct Event<'a> {
    pub call: Call<'a>,
    pub buffer: Vec<u8>,
    pub answer: Answer,
    pub left: Vec<u8>,
    pub before: [bool; MOST_DRIVES],
    pub after: [bool; MOST_DRIVES],
}
