// Reads the attribute area that carries the offers (document 01, "Attribute area"; RFC 5448 sections 3.1 and 3.2). The walk goes
// through the attributes once and keeps the offers aside, so that only an area that is read whole alters the buffer lent for them.
#![tactic(auto)]

ghost use Rattle.std.specs.Prelude.{◌≡◌, ◌+◌, ◌≤◌, length, take, drop};
ghost use Rattle.refusal.specs.Answers.{reason_of};
ghost use Rattle.area_format.specs.Area.{fault_at, area_answer, area_buffer};
ghost use Rattle.area_format.specs.Names.{same_fields};
ghost use Rattle.area.specs.Area.{area_answer_of};
ghost use Rattle.area.specs.Internal.{allowed};

mod kept; // the offers, kept aside
mod network; // network names compared by their fields
mod reader; // the attributes of an area, read one at a time
mod walk; // what the attributes come to

use crate::network::same_fields;
use crate::walk::{Met, Stopped, walk};
use area_format::{Fault, Name, Way};
use refusal::{Refusal, check_room};

// What an area that is read whole holds: the count of its offers, the name's offset from the area's first byte, its length in bytes,
// and whether it agrees with the peer's own name, field by field.
#[derive(Drop)]
pub struct Offered {
    pub count: usize,
    pub name_at: usize,
    pub name_len: usize,
    pub same_name: bool,
}

// What a fault at an offset is refused by.
impl From<Stopped> for Refusal {
    ghost from_gives = { λ stopped refusal. reason_of refusal ≡ fault_at stopped.at stopped.why };

    fn from(stopped: Stopped) -> Refusal {
        match stopped.why {
            Fault::AttributeBounds => Refusal::AttributeBounds(stopped.at),
            Fault::KdfLength => Refusal::KdfLength,
            Fault::KdfInput => Refusal::KdfInput,
            Fault::KdfInputPadding => Refusal::KdfInputPadding,
            Fault::NetworkName => Refusal::NetworkName,
            Fault::OfferCount => Refusal::OfferCount,
        }
    }
}

// Whether the area's name agrees with the peer's own.
fn is_own_name(area: &[u8], name: Name, own_name: &[u8]) -> bool
    requires { name.at + name.len.0 ≤ length area.now }
    ensures { result ≡ same_fields (take name.len.0 (drop name.at area.now)) own_name.now }
{
    same_fields(&area[name.at..name.at + name.len.0], own_name)
}

// Whether an area is read by a way: strictly only where its name agrees with the peer's own.
fn allows(way: Way, same: bool) -> bool
    ensures { result ≡ allowed way same }
{
    match way {
        Way::Strict => same,
        Way::Lenient => true,
    }
}

// Reads an attribute area by the chosen way: writes its offers to `out`, in order, and tells where its name stands and whether that agrees with
// `own_name`. A name that differs is refused by the strict way, before anything is written.
#[tactic(auto, unfolding(area_format::specs::Area::area_answer, area_format::specs::Area::area_buffer, area_format::specs::Area::reading, area_format::specs::Area::walked), using(crate::proofs::Names::name_of))]
pub fn read_area(
    area: &[u8],
    own_name: &[u8],
    way: Way,
    out: &mut [u16],
) -> Result<Offered, Refusal>
    ensures answer { area_answer_of result ≡ area_answer way area.now own_name.now (length out.old) }
    ensures buffer { out.new ≡ area_buffer way area.now own_name.now out.old }
{
    check_room(17, out.len())?;
    let mut met = Met::nothing();
    let name = walk(area, &mut met)?;
    let same_name = is_own_name(area, name, own_name);
    if !allows(way, same_name) {
        return Err(Refusal::NetworkNameDiffers);
    }
    let offers = met.offers.as_slice();
    slices::copy(offers, out);
    Ok(Offered {
        count: offers.len(),
        name_at: name.at,
        name_len: name.len.0,
        same_name,
    })
}
