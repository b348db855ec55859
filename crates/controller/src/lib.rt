//! The calls on an array one at a time and in whole runs, and the law that they keep.
#![tactic(auto)]

pub mod calls;
pub mod log;
pub mod perform;
pub mod run;
