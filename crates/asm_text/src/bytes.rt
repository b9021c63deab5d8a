//! Bytes, blanks and names.

ghost use Rattle.std.specs.Prelude.{◌≡◌, ◌≤◌, length, take, drop};
ghost use Rattle.std.specs.List.{prefix_len, suffix_len};
ghost use Rattle.asm_text.specs.Bytes.{is_blank, is_digit, is_letter, begins_name, is_name_byte, name_len, is_name, without_front_blanks, without_end_blanks, trimmed, is_all_blank};

/// Space or tab.
pub fn is_blank(byte: u8) -> bool
    ensures { result ≡ is_blank byte }
{
    byte == b' ' || byte == b'\t'
}

pub fn is_digit(byte: u8) -> bool
    ensures { result ≡ is_digit byte }
{
    byte >= b'0' && byte <= b'9'
}

fn is_letter(byte: u8) -> bool
    ensures { result ≡ is_letter byte }
{
    byte >= b'a' && byte <= b'z' || byte >= b'A' && byte <= b'Z'
}

fn begins_name(byte: u8) -> bool
    ensures { result ≡ begins_name byte }
{
    is_letter(byte) || byte == b'_' || byte == b'.'
}

fn is_name_byte(byte: u8) -> bool
    ensures { result ≡ is_name_byte byte }
{
    begins_name(byte) || is_digit(byte) || byte == b'$'
}

/// How many bytes at the front may belong to a name.
fn name_bytes(bytes: &[u8]) -> usize
    ensures { result ≡ prefix_len is_name_byte bytes.now }
{
    for (i, byte) in bytes.iter().enumerate() {
        if !is_name_byte(*byte) {
            return i;
        }
    }
    bytes.len()
}

/// How many bytes the name at the front has, which may be none.
pub fn name_len(bytes: &[u8]) -> usize
    ensures value { result ≡ name_len bytes.now }
    ensures within { result ≤ length bytes.now }
{
    match bytes {
        [first, ..] if begins_name(*first) => name_bytes(bytes),
        _ => 0,
    }
}

/// Whether the bytes are a name.
pub fn is_name(bytes: &[u8]) -> bool
    ensures { result ≡ is_name bytes.now }
{
    let len = name_len(bytes);
    len > 0 && len == bytes.len()
}

/// How many blanks stand at the front.
fn front_blanks(bytes: &[u8]) -> usize
    ensures { result ≡ prefix_len is_blank bytes.now }
{
    for (i, byte) in bytes.iter().enumerate() {
        if !is_blank(*byte) {
            return i;
        }
    }
    bytes.len()
}

/// Less the blanks at the front.
pub fn without_front_blanks(bytes: &[u8]) -> &[u8]
    ensures value { result.now ≡ without_front_blanks bytes.now }
    ensures within { length result.now ≤ length bytes.now }
{
    &bytes[front_blanks(bytes)..]
}

/// Less the blanks at the end.
fn without_end_blanks(bytes: &[u8]) -> &[u8]
    ensures { result.now ≡ without_end_blanks bytes.now }
{
    let mut len = bytes.len();
    while len > 0 && is_blank(bytes[len - 1]) {
        len -= 1;
    }
    &bytes[..len]
}

/// Less the blanks at both ends.
#[tactic(auto, unfolding(crate::specs::Bytes::trimmed))]
pub fn trimmed(bytes: &[u8]) -> &[u8]
    ensures { result.now ≡ trimmed bytes.now }
{
    without_end_blanks(without_front_blanks(bytes))
}

/// Whether there is nothing but blanks.
pub fn is_all_blank(bytes: &[u8]) -> bool
    ensures { result ≡ is_all_blank bytes.now }
{
    front_blanks(bytes) == bytes.len()
}
