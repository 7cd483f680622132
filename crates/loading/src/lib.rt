// The bytes of the rule file that the programs are started beside. Uses no other crate.
#![tactic(auto)]

ghost use Rattle.std.specs.Prelude.{◌≤◌, length, IfOk};

use std::fs::File;
use std::io;
use std::io::Read;

/// One byte more than the largest rule file, so that a longer one is seen to be longer.
pub const LIMIT: usize = 32769;

/// The bytes of the file RULES from the first on, as many as the buffer has room for. A file that cannot be read to its
/// end, or to the end of the buffer, is like one without bytes.
pub fn load_rules<'a>(rt: &HostRuntime, buffer: &'a mut [u8]) -> &'a [u8]
    ensures { length result.now ≤ length buffer.old }
{
    load(rt, "RULES", buffer).unwrap_or(&[])
}

// Fills the buffer from the front, to the end of the file or of the buffer, and gives the bytes.
fn load<'a>(rt: &HostRuntime, path: &str, buffer: &'a mut [u8]) -> io::Result<&'a [u8]>
    ensures { IfOk result (λ bytes. length bytes.now ≤ length buffer.old) }
{
    let mut file = File::open(rt, path)?;
    let mut filled = 0;
    while filled < buffer.len() {
        let more = file.read(&mut buffer[filled..])?;
        if more == 0 {
            break;
        }
        filled += more;
    }
    Ok(&buffer[..filled])
}
