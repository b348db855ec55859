//! Where the blocks of a disk array lie: extents, the methods of redundancy and their check data,
//! and the place of every block of a group.
#![tactic(auto)]

pub mod block;
pub mod extent;
pub mod figures;
pub mod geometry;
pub mod method;
pub mod mirror;
pub mod parity;
pub mod refusal;
pub mod row;
#[cfg(test)]
mod tests;
pub mod unprotected;
