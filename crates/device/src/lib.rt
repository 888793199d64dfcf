// A device for descriptor sets, known by its meaning alone.
#![tactic(auto)]

pub mod faults;
pub mod laws;
pub mod meaning;
pub mod records;
pub mod validity;
pub mod writes;
