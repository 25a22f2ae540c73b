//! Bytes written to a buffer if all of them fit.

ghost use Rattle.std.specs.Prelude.{◌≡◌, ◌<◌, ◌≤◌, ◌++◌, length, drop};

/// Writes the text to the front of the buffer if all of it fits, and returns how many bytes were
/// written.
pub fn write_whole(text: &str, buffer: &mut [u8]) -> usize
    ensures whole { length text.now ≤ length buffer.old
        → (buffer.new ≡ text.now ++ drop (length text.now) buffer.old) × (result ≡ length text.now) }
    ensures too_short { length buffer.old < length text.now
        → (buffer.new ≡ buffer.old) × (result ≡ 0) }
{
    write_bytes(text.as_bytes(), buffer)
}

/// Writes the bytes to the front of the buffer if all of them fit, and returns how many were
/// written.
pub fn write_bytes(bytes: &[u8], buffer: &mut [u8]) -> usize
    ensures whole { length bytes.now ≤ length buffer.old
        → (buffer.new ≡ bytes.now ++ drop (length bytes.now) buffer.old)
        × (result ≡ length bytes.now) }
    ensures too_short { length buffer.old < length bytes.now
        → (buffer.new ≡ buffer.old) × (result ≡ 0) }
{
    if buffer.len() < bytes.len() {
        return 0;
    }
    buffer[..bytes.len()].copy_from_slice(bytes);
    bytes.len()
}
