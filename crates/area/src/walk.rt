// The walk through the attributes of an area (document 01, "Attribute area"): the offers and the name that were met so far, and what an attribute more
// makes of them.
ghost use Rattle.std.specs.Prelude.{◌≡◌, List, [], ◌∷◌, ℕ, ◌+◌, ◌^◌, ◌<◌, None};
ghost use Rattle.area_format.specs.Area.{Standing, standing, read_on, attributes, ended};
ghost use Rattle.area.specs.Internal.{walked_as, read_after};

use crate::kept::Kept;
use crate::reader::Reader;
use area_format::{Attribute, Fault, Name};

// Why a walk stops: a fault, and the offset of the attribute that has it, or of the area's end.
#[derive(Drop)]
pub(crate) struct Stopped {
    pub(crate) why: Fault,
    pub(crate) at: usize,
}

// What a walk has met so far.
#[derive(Drop)]
pub(crate) struct Met {
    pub(crate) offers: Kept,
    pub(crate) name: Option<Name>,
}

impl Met {
    pub(crate) fn nothing() -> Self
        ensures { (result.offers ≡ []) × (result.name ≡ None) }
    {
        Met {
            offers: Kept::new(),
            name: None,
        }
    }

    // One attribute more: an offer is kept, unless it is the eighteenth; a name is the area's, unless it is the second. A name stands four bytes after its
    // attribute's first.
    fn add(&mut self, at: usize, met: Attribute) -> Result<(), Fault>
        requires { at + 4 < 2 ^ 64 }
        ensures { (later : List Standing) → read_on self.old.offers self.old.name (standing at met ∷ later) ≡ read_after result at self.new later }
    {
        match met {
            Attribute::Faulty(why) => Err(why),
            Attribute::Other => Ok(()),
            Attribute::Offer(value) => self.offers.push(value),
            Attribute::Named(len) => match self.name {
                Some(_) => Err(Fault::NetworkName),
                None => {
                    self.name = Some(Name { at: at + 4, len });
                    Ok(())
                }
            },
        }
    }

    // At the area's end, which is an offset too: no name is refused, and then no offer.
    fn ended(&self, at: usize) -> Result<Name, Stopped>
        ensures { walked_as result self.now.offers ≡ ended self.now.offers self.now.name }
    {
        let name = self.name.ok_or(Stopped {
            why: Fault::NetworkName,
            at,
        })?;
        if self.offers.as_slice().is_empty() {
            return Err(Stopped {
                why: Fault::OfferCount,
                at,
            });
        }
        Ok(name)
    }
}

// The walk through the attributes of the area, left to right, past what was met before.
#[tactic(auto, unfolding(area_format::specs::Area::attributes, area_format::specs::Area::read_on))]
pub(crate) fn walk(area: &[u8], met: &mut Met) -> Result<Name, Stopped>
    ensures { walked_as result met.new.offers ≡ read_on met.old.offers met.old.name (attributes area.now) }
{
    for (at, attribute) in Reader::new(area) {
        met.add(at, attribute).map_err(|why| Stopped { why, at })?;
    }
    met.ended(area.len())
}
