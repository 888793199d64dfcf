// The tables of a device: rows with handles, and what they hold.
#![tactic(auto)]

pub mod access;
pub mod bindings;
pub mod counting;
pub mod holdings;
pub mod pools;
pub mod slots;
pub mod table;
