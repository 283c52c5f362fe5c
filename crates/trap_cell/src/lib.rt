//! The gated cell: a value in two slots, changed by writing the slot that isn't current and then
//! its gate byte.
#![tactic(auto)]

mod cell;
mod fault;
mod heads;
#[cfg(test)]
mod tests;

pub use cell::Cell;
pub use fault::CellFault;
