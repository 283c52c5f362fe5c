//! The log read record by record.
#![tactic(auto)]

mod expected;
mod fault;
pub mod laws;
mod scan;
mod window;

pub use expected::Expected;
pub use fault::{CheckFault, ScanFault};
pub use scan::Scan;
pub use trap_model::LogRec;

#[cfg(test)]
mod tests;
