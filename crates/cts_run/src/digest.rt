// Digests of files.
ghost use Rattle.std.specs.Prelude.{◌≡◌};

use cts_log::digest_of;
use std::marker::Model;

/// The MD5 digest of the bytes of a file.
#[derive(Drop)]
pub struct Digest {
    bytes: [u8; 16],
}

impl Model for Digest {
    ghost use Rattle.std.specs.Prelude.{List, ℕ};

    ghost Value = { List ℕ };

    ghost view = { λ d. d.bytes };
}

impl Digest {
    ghost use Rattle.md5.specs.Md5.{md5};

    /// That of these bytes.
    pub fn of(text: &[u8]) -> Digest
        ensures { result ≡ md5 text.now }
    {
        let bytes = digest_of(text);
        Digest { bytes }
    }

    /// Its sixteen bytes.
    pub fn bytes(&self) -> &[u8; 16]
        ensures { result.now ≡ self.now }
    {
        &self.bytes
    }
}
