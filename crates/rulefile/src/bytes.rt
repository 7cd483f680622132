// Numbers in a slice of bytes, the least byte first.
ghost use Rattle.std.specs.Prelude.{◌≡◌, length};
ghost use Rattle.ruleformat.specs.Bytes.{number};

// The number of eight bytes.
pub(crate) fn read_u64(bytes: &[u8]) -> u64
    requires { length bytes.now ≡ 8 }
    ensures { result ≡ number bytes.now }
{
    let mut eight = [0; 8];
    eight.copy_from_slice(bytes);
    u64::from_le_bytes(eight)
}
