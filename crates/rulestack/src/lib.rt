// The rules of a file: four folders over its table sheets beside its clause sheets. Uses all the libraries before it.
#![tactic(auto)]

mod building;
mod laws;
mod space;

pub use building::{RuleStack, ask, build};
pub use laws::{algebra_examples, file_laws};
pub use space::StackSpace;
