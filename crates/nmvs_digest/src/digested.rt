//! Digests of bytes while they are read.
ghost use Rattle.std.specs.Prelude.{◌≡◌, ◌↔◌, [], IsTrue, option_map};
ghost use Rattle.std.specs.Option.{ForSome};
ghost use Rattle.sha2.specs.Hashers.{Holds256};
ghost use Rattle.nmvs_digest.specs.Digests.{IsDigestOf};

use nmvs_stream::{Failed, Source};
use sha2::{Digest, Sha256};

/// A source of bytes of which a digest may be expected. Without one, none is computed.
#[derive(Drop)]
pub struct Digested<S: Source> {
    source: S,
    expected: Option<Expected>,
    ghost digests: { ForSome expected (λ e. ∥ Holds256 e.hasher (S.told source).bytes ∥₁) },
}

/// The digest that is expected, and the hasher of the bytes that were read.
#[derive(Drop)]
struct Expected {
    hasher: Sha256,
    sum: [u8; 32],
}

impl<S: Source + Drop> Digested<S> {
    /// A source that has given nothing yet, and the digest that is expected of all its bytes, if one is.
    pub fn new(source: S, expected: Option<[u8; 32]>) -> Digested<S>
        requires { (S.told source).bytes ≡ [] }
        ensures source { result.source ≡ source }
        ensures expected { option_map (λ e. e.sum) result.expected ≡ expected }
    {
        Digested {
            source,
            expected: expected_of(expected),
        }
    }

    /// The digest that is expected, if one is.
    pub fn expected(&self) -> Option<[u8; 32]>
        ensures { result ≡ option_map (λ e. e.sum) self.now.expected }
    {
        match &self.expected {
            None => None,
            Some(expected) => Some(expected.sum),
        }
    }

    /// Whether all bytes that were read have the expected digest, if one is expected.
    pub fn agrees(self) -> bool
        ensures { IsTrue result ↔ IsDigestOf (option_map (λ e. e.sum) self.expected) (S.told self.source).bytes }
    {
        match self.expected {
            None => true,
            Some(expected) => {
                let sum = expected.sum;
                expected.hasher.finalize() == sum
            }
        }
    }
}

/// The expected digest, and a hasher of no bytes.
fn expected_of(sum: Option<[u8; 32]>) -> Option<Expected>
    ensures sum { option_map (λ e. e.sum) result ≡ sum }
    ensures none { ForSome result (λ e. Holds256 e.hasher []) }
{
    match sum {
        None => None,
        Some(sum) => Some(Expected {
            hasher: Sha256::new(),
            sum,
        }),
    }
}

impl<S: Source> Source for Digested<S> {
    ghost told = { λ d. S.told d.source };

    ghost left = { λ d. S.left d.source };

    fn read(&mut self, buffer: &mut [u8]) -> Result<usize, Failed> {
        let count = self.source.read(buffer)?;
        if let Some(expected) = &mut self.expected {
            expected.hasher.update(&buffer[..count]);
        }
        Ok(count)
    }
}
