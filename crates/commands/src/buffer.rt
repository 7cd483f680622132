// Writing a line over the front of a buffer.
ghost use Rattle.std.specs.Prelude.{◌≡◌, ℕ, ◌+◌, ◌<◌, ◌≤◌, List, ◌++◌, length};
ghost use Rattle.commands.specs.Replies.{ended, over, text_in};

/// The bytes that a line may have, its end among them.
pub const LINE: usize = 96;

// Writes the pieces one after the other, and then a line's end; says how many bytes that is.
pub(crate) fn write_line(pieces: &[&[u8]], buffer: &mut [u8; LINE]) -> usize
    requires { length (text_in pieces.now) < 96 }
    ensures written { buffer.new ≡ over (ended (text_in pieces.now)) buffer.old }
    ensures count { result ≡ length (ended (text_in pieces.now)) }
{
    let mut end = 0;
    for piece in pieces {
        end = write_piece(piece, end, buffer);
    }
    write_piece(b"\n", end, buffer)
}

// Writes a piece behind a text that ends there, and says where the two end.
fn write_piece(piece: &[u8], start: usize, buffer: &mut [u8; LINE]) -> usize
    requires { start + length piece.now ≤ 96 }
    ensures written { (text was : List ℕ) → length text ≡ start → buffer.old ≡ over text was → buffer.new ≡ over (text ++ piece.now) was }
    ensures end { result ≡ start + length piece.now }
{
    let end = start + piece.len();
    buffer[start..end].copy_from_slice(piece);
    end
}
