// HMAC-SHA-256 (RFC 2104): the instance of the crate `keyed_hash` with SHA-256. A caller that has many messages under one key keeps a `Keyed`.
#![tactic(auto)]

ghost use Rattle.std.specs.Prelude.{◌≡◌};
ghost use Rattle.slices.specs.Parts.{joined};
ghost use Rattle.hmac.specs.Rfc2104.{hmac_sha256};

use sha256::Sha256;

// A key as it is kept for many messages.
pub type Keyed = keyed_hash::Keyed<Sha256, 8, 32>;

// The MAC of a message that is lent in parts.
pub fn mac_of_parts(key: &[u8], parts: &[&[u8]]) -> [u8; Sha256::DIGEST]
    ensures { result ≡ hmac_sha256 key.now (joined parts.now) }
{
    keyed_hash::mac_of_parts::<Sha256, 8, 32>(key, parts)
}

// The MAC of a message.
pub fn mac(key: &[u8], message: &[u8]) -> [u8; Sha256::DIGEST]
    ensures { result ≡ hmac_sha256 key.now message.now }
{
    keyed_hash::mac::<Sha256, 8, 32>(key, message)
}
