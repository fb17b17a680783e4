// HMAC-SHA-1 (RFC 2104): the instance of the crate `keyed_hash` with SHA-1. A caller that has many messages under one key keeps a `Keyed`.
#![tactic(auto)]

ghost use Rattle.std.specs.Prelude.{◌≡◌};
ghost use Rattle.hmac_sha1.specs.Rfc2104.{hmac_sha1};

use sha1_hash::{DIGEST, Sha1};

// A key as it is kept for many messages.
pub type Keyed = keyed_hash::Keyed<Sha1, 5, 20>;

// The MAC of a message under a key that is used once.
pub fn mac(key: &[u8], message: &[u8]) -> [u8; DIGEST]
    ensures { result ≡ hmac_sha1 key.now message.now }
{
    keyed_hash::mac::<Sha1, 5, 20>(key, message)
}
