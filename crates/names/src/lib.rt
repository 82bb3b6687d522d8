// Sensor names: the classes of their bytes, and their short forms.
#![tactic(auto)]

mod byte_class;
mod name_refusal;
mod padding;
mod short_name;

pub use byte_class::{ByteClass, class_of};
pub use name_refusal::NameRefusal;
pub use padding::padded;
pub use short_name::{MAX_LENGTH, ShortName, is_short, shorten};
