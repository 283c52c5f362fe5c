//! The model of the array: what a volume is, what may be asked of it, and what a request does.
#![tactic(auto)]

pub mod array_laws;
mod arrival;
mod asked;
mod bytes;
mod code;
mod entry_size;
mod frame;
pub mod frame_laws;
mod gate;
mod history;
mod image;
mod instants;
mod keeping;
mod known;
pub mod laws;
mod log_record;
mod numbers;
mod plain;
pub mod receiver_laws;
mod refusing;
mod request;

pub use arrival::{Arrival, Parity, Taken};
pub use asked::Asked;
pub use bytes::Block;
pub use frame::Frame;
pub use gate::OPEN_GATE;
pub use history::{Entries, Entry, State};
pub use image::Image;
pub use known::{Known, Path, Way};
pub use log_record::{LogRec, RECORD_HEADER_BYTES};
pub use numbers::Geometry;
pub use plain::Plain;
pub use request::{Refusal, Reply, Request};
