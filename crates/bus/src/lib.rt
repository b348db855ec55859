// The bus of drives: what one is, what a request to it answers, and what may happen to it between requests.
#![tactic(auto)]

pub mod address;
pub mod fault;
pub mod interface;
pub mod laws;

pub use address::BlockAddress;
pub use fault::BusFault;
pub use interface::Bus;

// The bytes of a block.
pub const BLOCK: usize = 512;

// The most drives of a bus.
pub const MOST_DRIVES: usize = 16;

// The most blocks of a drive.
pub const MOST_BLOCKS: usize = 65536;
