//! Places of bytes.

ghost use Rattle.std.specs.Prelude.{◌≡◌, ◌+◌, ◌<◌, ◌≤◌, ◌↔◌, IsTrue, length, drop};
ghost use Rattle.std.specs.List.{position_or_len};
ghost use Rattle.flk_text.specs.Lines.{is_byte, ends_last_line};

// Whether such a byte is among these. No branch is taken at a byte, so that many are compared at once.
#[inline(always)]
fn has_byte(bytes: &[u8], byte: u8) -> bool
    ensures { IsTrue result ↔ (position_or_len (is_byte byte) bytes.now < length bytes.now) }
{
    let mut found = false;
    for each in bytes {
        found = found | (*each == byte);
    }
    found
}

// How many bytes are in the blocks in front that have no such byte. A block has 16 bytes.
fn blocks_without(bytes: &[u8], byte: u8) -> usize
    ensures within { result ≤ length bytes.now }
    ensures place { result + position_or_len (is_byte byte) (drop result bytes.now)
        ≡ position_or_len (is_byte byte) bytes.now }
{
    let mut count = 0;
    while bytes.len() - count >= 16 {
        if has_byte(&bytes[count..count + 16], byte) {
            return count;
        }
        count += 16;
    }
    count
}

/// The place of the first such byte, or the length where there is none.
pub fn position_of(bytes: &[u8], byte: u8) -> usize
    ensures place { result ≡ position_or_len (is_byte byte) bytes.now }
    ensures within { result ≤ length bytes.now }
{
    let mut count = blocks_without(bytes, byte);
    for each in &bytes[count..] {
        if *each == byte {
            return count;
        }
        count += 1;
    }
    count
}

/// The place of the first byte that ends a file's last line, LF or 1A, or the length where there is none.
pub fn last_line_end(bytes: &[u8]) -> usize
    ensures place { result ≡ position_or_len ends_last_line bytes.now }
    ensures within { result ≤ length bytes.now }
{
    let mut count = 0;
    for each in bytes {
        if *each == b'\n' || *each == 0x1a {
            return count;
        }
        count += 1;
    }
    count
}
