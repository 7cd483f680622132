// Command lines, cut out of bytes as they come and read, and the lines of the replies. Uses `assignment`, `listing`,
// `calls` and the kit's `itoa`.
#![tactic(auto)]

mod buffer;
mod command;
mod laws;
mod letters;
mod number;
mod reply;
mod splitter;

pub use buffer::LINE;
pub use command::parse_command;
pub use laws::{command_laws, reply_laws, splitting_laws};
pub use reply::{write_letters, write_options, write_refused, write_reply};
pub use splitter::Splitter;
