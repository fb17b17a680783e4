// The labels that the papers fix: which of them the syntax of a label exempts (document 02, request 7), and the test that no usage request has
// the label of a domain root key: 31 (request 6).
ghost use Rattle.std.specs.Prelude.{◌≡◌};
ghost use Rattle.labels.specs.Checks.{check31};
ghost use Rattle.labels.specs.FixedLabels.{exempt};
ghost use Rattle.refusal.specs.Answers.{checked_as};

use refusal::Refusal;

// Whether a label is exempt from the syntax of a label: those of a VRK, a V-rRK and an rRK are.
#[tactic(auto, unfolding(crate::specs::FixedLabels::exempt, crate::specs::FixedLabels::vrk_label, crate::specs::FixedLabels::visited_reauth_label, crate::specs::FixedLabels::rrk_label))]
pub(crate) fn is_exempt(label: &[u8]) -> bool
    ensures { result ≡ exempt label.now }
{
    slices::same_bytes(label, b"EAP Visited domain Root Key")
        | slices::same_bytes(label, b"EAP Re-authentication Root Key")
        | slices::same_bytes(label, b"EAP Re-authentication Root Key@ietf.org")
}

// Refuses the label of a domain root key, which no usage request may have: 31.
#[tactic(auto, unfolding(crate::specs::Checks::check31, crate::specs::FixedLabels::dsrk_label))]
pub fn check_domain_label(label: &[u8]) -> Result<(), Refusal>
    ensures { checked_as result ≡ check31 label.now }
{
    refusal::unless(
        !slices::same_bytes(label, b"dsrk@ietf.org"),
        Refusal::DomainLabel,
    )
}
