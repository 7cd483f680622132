// Partial assignments: what is known of each of the 64 options. Uses no other crate.
#![tactic(auto)]

mod assignment;
mod mask;
mod value;

pub use assignment::{Assignment, equality_laws, precision_laws};
pub use mask::{has_bit, has_bit_from};
pub use value::Value;
