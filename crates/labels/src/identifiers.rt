// Tests of server IDs and domains: document 01's numbers 7 and 8 ("Refusal numbers"). This is the one place that tests them.
ghost use Rattle.std.specs.Prelude.{◌≡◌};
ghost use Rattle.labels.specs.Checks.{check7, check8};
ghost use Rattle.refusal.specs.Answers.{checked_as};

use crate::charset::{ByteSet, check_text};
use refusal::Refusal;

// Tests a server ID: 7.
pub fn check_server_id(server: &[u8]) -> Result<(), Refusal>
    ensures { checked_as result ≡ check7 server.now }
{
    check_text(server, ByteSet::Server, 255).map_err(|_| Refusal::ServerId)
}

// Tests a domain: 8.
pub fn check_domain(domain: &[u8]) -> Result<(), Refusal>
    ensures { checked_as result ≡ check8 domain.now }
{
    check_text(domain, ByteSet::Domain, 253).map_err(|_| Refusal::Domain)
}
