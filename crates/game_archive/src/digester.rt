ghost use Rattle.std.specs.Prelude.{◌≡◌, ℕ, List};
ghost use Rattle.sha2.specs.Sha256.{sha256};

use sha2::{Digest, Sha256};

/// Gives digests of texts. Equal texts have equal digests. Different ones may have equal digests
/// too: digests only narrow a search.
pub trait Digester {
    // The digest of a text.
    ghost digest_of: { Self → List ℕ → List ℕ };

    /// The digest of the text.
    fn digest(&self, text: &[u8]) -> [u8; 32]
        ensures { result ≡ digest_of self.now text.now };
}

/// Gives SHA-256 digests.
#[derive(Clone, Copy, Debug)]
pub struct Sha256Digester;

impl Digester for Sha256Digester {
    ghost digest_of = { λ _ text. sha256 text };

    fn digest(&self, text: &[u8]) -> [u8; 32] {
        Sha256::digest(text)
    }
}
