// Enquiries on the rules of a file. Uses all the libraries before it.
#![tactic(auto)]

mod laws;
mod opening;
mod space;

pub use laws::{enquiry_laws, worked_examples};
pub use opening::{FileEnquiry, open_file};
pub use space::FileSpace;
