// The number of a refusal, and the place that it carries (document 01, "Refusal numbers"; document 02, request 1).
ghost use Rattle.std.specs.Prelude.{◌≡◌};
ghost use Rattle.refusal.specs.Answers.{reason_of, number_in, carried};

use crate::Refusal;

impl Refusal {
    // The number of a refusal.
    pub fn number(self) -> u32
        ensures { result ≡ number_in (reason_of self) }
    {
        match self {
            Refusal::RootKeyLength => 1,
            Refusal::LabelLength => 2,
            Refusal::LabelByte(_) => 3,
            Refusal::DataLength => 4,
            Refusal::KeyLength => 5,
            Refusal::Room => 6,
            Refusal::ServerId => 7,
            Refusal::Domain => 8,
            Refusal::SessionId => 9,
            Refusal::OfferCount => 10,
            Refusal::RepeatedOffer => 11,
            Refusal::NoOfferSupported => 12,
            Refusal::ReplyIsFirst => 13,
            Refusal::ReplyNotOffered => 14,
            Refusal::RenewedList => 15,
            Refusal::AttributeBounds(_) => 16,
            Refusal::KdfLength => 17,
            Refusal::KdfInput => 18,
            Refusal::NetworkName => 19,
            Refusal::AttributeType => 20,
            Refusal::IdLength => 21,
            Refusal::KekLength => 22,
            Refusal::KeyToWrapLength => 23,
            Refusal::KeyAttributeLength => 24,
            Refusal::ReservedByte => 25,
            Refusal::EncType => 26,
            Refusal::IvField => 27,
            Refusal::Integrity => 28,
            Refusal::KdfInputPadding => 29,
            Refusal::NetworkNameDiffers => 30,
            Refusal::DomainLabel => 31,
            Refusal::LabelSyntax => 32,
            Refusal::HandoverKeyLength => 33,
            Refusal::IdentifierLength => 34,
            Refusal::PacketLength => 35,
            Refusal::PacketAttributeBounds => 36,
            Refusal::MacAttribute => 37,
            Refusal::MacDiffers => 38,
            Refusal::BundleCount => 39,
            Refusal::BundleContents => 40,
            Refusal::BundleEnd => 41,
            Refusal::RepeatedKeyId => 42,
            Refusal::AkaInputLength => 43,
            Refusal::NetworkNameLength => 44,
            Refusal::IdentityLength => 45,
            Refusal::SlotsFull => 46,
            Refusal::NoSuchSlot => 47,
            Refusal::ParentNotLive => 48,
            Refusal::TooDeep => 49,
            Refusal::KeyIdUnlikeContents => 50,
        }
    }

    // The place that it carries, if it carries one.
    pub fn place(self) -> Option<usize>
        ensures { result ≡ carried (reason_of self) }
    {
        match self {
            Refusal::LabelByte(position) => Some(position),
            Refusal::AttributeBounds(offset) => Some(offset),
            _ => None,
        }
    }
}
