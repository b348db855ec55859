//! The tables of an array, the checks before any work, and the calls on groups, volume sets and their blocks.
#![tactic(auto)]

pub mod asking;
pub mod blocks;
pub mod emptiness;
mod extents;
pub mod kind;
pub mod making;
pub mod refusal;
mod scan;
pub mod slot;
mod spots;
pub mod tables;
pub mod volume;
pub mod volumes;
