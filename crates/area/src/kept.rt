// The offers of an area, kept aside in fixed memory until the area is known to be whole.
ghost use Rattle.std.specs.Prelude.{◌≡◌, ℕ, List, [], ◌∷◌, ◌++◌, ◌≤◌, ◌<◌, take, length, MatchResult};
ghost use Rattle.area_format.specs.declared.Fault.TheVariants.{OfferCount};

use area_format::Fault;
use std::marker::Model;

// The offers that are kept, at most 17. Their count is in 32 bits, so that it stands in one register of any core.
#[derive(Drop)]
pub(crate) struct Kept {
    values: [u16; 17],
    count: u32,
}

impl Model for Kept {
    ghost Value = { List ℕ };

    ghost view = { λ kept. take kept.count kept.values };

    ghost invariant = { λ kept. kept.count ≤ 17 };
}

impl Kept {
    pub(crate) fn new() -> Self
        ensures { result ≡ [] }
    {
        Kept {
            values: [0; 17],
            count: 0,
        }
    }

    // One more after those that are kept, unless it is the eighteenth.
    pub(crate) fn push(&mut self, value: u16) -> Result<(), Fault>
        ensures { MatchResult result (λ _. (length self.old < 17) × (self.new ≡ self.old ++ value ∷ [])) (λ why. (17 ≤ length self.old) × (why ≡ OfferCount) × (self.new ≡ self.old)) }
    {
        if self.count == 17 {
            return Err(Fault::OfferCount);
        }
        self.values[self.count as usize] = value;
        self.count += 1;
        Ok(())
    }

    pub(crate) fn as_slice(&self) -> &[u16]
        ensures values { result.now ≡ self.now }
        ensures few { length result.now ≤ 17 }
    {
        &self.values[..self.count as usize]
    }
}
