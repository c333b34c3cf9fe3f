// Bytes that are put at the front of lent ones.
ghost use Rattle.wire.specs.Bytes.{Written};

/// Puts the bytes at the front and says how many they are, if there is room.
pub fn put(bytes: &[u8], out: &mut [u8]) -> Option<usize>
    ensures { Written bytes.now out.old out.new result }
{
    let size = bytes.len();
    if out.len() < size {
        return None;
    }
    out[..size].copy_from_slice(bytes);
    Some(size)
}
