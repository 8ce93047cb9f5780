// An entry of a hash block: a 4-byte index and a 48-byte digest.
ghost use Rattle.std.specs.Prelude.{◌≡◌, ◌+◌, ◌≤◌, length};
ghost use Rattle.pdi_spec.specs.HashBlock.{entry_size};
ghost use Rattle.headers.specs.Headers.{entry_from};

// Where an entry lies, and its index.
#[derive(Clone, Copy)]
pub struct HashEntry {
    pub at: usize,
    pub index: u32,
}

impl HashEntry {
    // The offset of its parts, the digest's size, and its own size, in bytes.
    pub const INDEX: usize = 0;

    pub const DIGEST: usize = 4;

    pub const DIGEST_SIZE: usize = 48;

    pub const SIZE: usize = Self::DIGEST + Self::DIGEST_SIZE;

    // The entry at a byte offset.
    #[tactic(auto, unfolding(crate::specs::Headers::entry_from))]
    pub fn read(image: &[u8], at: usize) -> HashEntry
        requires { at + entry_size ≤ length image.now }
        ensures { result ≡ entry_from image.now at }
    {
        HashEntry {
            at,
            index: words::word_at(image, at + Self::INDEX),
        }
    }
}
