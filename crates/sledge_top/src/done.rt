//! What a command does, where it is not refused.

/// A file that is put.
#[derive(Debug, Drop)]
pub struct Put<'a> {
    pub name: &'a str,
    pub bytes: Vec<u8>,
}

/// The text of the first output, and the file that is put, if one is.
#[derive(Debug, Drop)]
pub struct Done<'a> {
    pub text: Vec<u8>,
    pub put: Option<Put<'a>>,
}
