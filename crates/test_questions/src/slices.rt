// Parts of bytes.

// The first n bytes, or all where there are fewer.
pub fn first(bytes: &[u8], n: usize) -> &[u8] {
    if n <= bytes.len() {
        return &bytes[0..n];
    }
    bytes
}

// The bytes after the first n.
pub fn rest(bytes: &[u8], n: usize) -> &[u8] {
    if n <= bytes.len() {
        return &bytes[n..];
    }
    &bytes[0..0]
}
