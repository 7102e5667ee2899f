//! The bytes of a configuration: its words in their order, each as two bytes, the more significant
//! one first. What is printed is read again, and what was read is printed again.
#![tactic(auto)]

mod printing;
mod reading;
#[cfg(test)]
mod tests;

pub use printing::print_config;
pub use reading::read_config;
