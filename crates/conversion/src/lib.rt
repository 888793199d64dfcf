// Layouts as wgpu describes them, and what Vulkan is told of them.
#![tactic(auto)]

pub mod bindings;
pub mod cases;
pub mod checks;
pub mod counts;
pub mod entries;
pub mod faults;
pub mod kinds;
pub mod results;
pub mod stages;
#[cfg(test)]
mod tests;
