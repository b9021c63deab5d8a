use sl_base::Seq;

/// The bytes that a program's image was read from, as a recording keeps them.
#[derive(Debug, Drop)]
pub struct ImageSource {
    /// The kind of the image: 0 flat, 1 ELF32.
    pub kind: u32,
    /// The address that a flat image is loaded at; 0 for ELF32.
    pub load_addr: u32,
    /// The image's bytes, at most 64 MiB.
    pub bytes: Seq<u8>,
}
