//! Buffers of the caller.

ghost use Rattle.std.specs.Prelude.{◌≡◌, length};
ghost use Rattle.armcaps_c.specs.Call.{filled};

/// Copies a text to the begin of a buffer, as much of it as there is room for, and answers its whole length.
pub fn copy_into(text: &[u8], buffer: &mut [u8]) -> usize
    ensures bytes { buffer.new ≡ filled text.now buffer.old }
    ensures count { result ≡ length text.now }
{
    let count = text.len().min(buffer.len());
    buffer[..count].copy_from_slice(&text[..count]);
    text.len()
}
