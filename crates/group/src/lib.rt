//! The rows of a redundancy group above any bus: reading, writing, rebuilding and filling, whatever drives break.
#![tactic(auto)]

pub mod fault;
pub mod fill;
pub mod making;
pub mod member;
mod parts;
pub mod record;
mod rows;
mod steps;
mod sweeps;
pub mod work;
