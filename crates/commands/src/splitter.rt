// Cutting bytes into lines as they come.
ghost use Rattle.std.specs.Prelude.{◌≡◌, ◌≤◌, length};

mod feeding;

const LONGEST: usize = 21;

/// Keeps what came since the last line's end, as far as a command has room for it.
#[derive(Drop)]
pub struct Splitter {
    kept: [u8; LONGEST],
    // How many bytes came; one more than there is room for stands for all larger numbers.
    count: usize,
    ghost counted: { count ≤ 22 },
    ghost room: { length kept ≡ 21 },
}
