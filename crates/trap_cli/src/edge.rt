//! The trusted edge: files of the current folder as disks, standard output as the port, and
//! standard input. No clause can say what these give or take, so they tell nothing of content.

mod bank;
mod fault;
mod files;
mod folder;
mod stdin;

pub use bank::FileBank;
pub use fault::BankFault;
pub use stdin::StdinSource;
