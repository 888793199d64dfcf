// A device that counts: it keeps descriptors in a list of records, and gives each handle once.
#![tactic(auto)]

pub mod calls;
pub mod counting;
pub mod laws;
pub mod meaning;
pub mod reading;
pub mod sets;
