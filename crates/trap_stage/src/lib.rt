//! The staging slots: writes that are committed and not yet on the members.
#![tactic(auto)]

mod disk;
mod fault;
pub mod laws;
mod slots;
mod stage;

pub use fault::StageFault;
pub use stage::Stage;

#[cfg(test)]
mod tests;
