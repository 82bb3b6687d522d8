// The packed image: a store in the caller's buffer, as records one after the other.
#![tactic(auto)]

mod cause;
mod check;
mod fault;
mod field;
mod layer;
mod opening;
mod packed;
mod packed_store;
mod read;
mod records;
mod refusal;
mod search;
mod tag;
mod write;

pub use cause::Cause;
pub use fault::{FieldCheck, FieldFault, ImageFault, RecordFault};
pub use field::Record;
pub use layer::Layer;
pub use packed::PackedImage;
pub use records::Records;
pub use refusal::ImageRefusal;
