// Key attributes packed end to end, which are the bodies of a bundle (document 02, request 9), walked from the first on.
ghost use Rattle.std.specs.Prelude.{◌≡◌, length};
ghost use Rattle.refusal.specs.Checks.{pass};
ghost use Rattle.key_frame.specs.KeyFrame.{frame_check};
ghost use Rattle.radius_attributes.specs.Attributes.{attribute_length};
ghost use Rattle.bundle_rules.specs.Bundle.{packed, frames_check};

use crate::ids::KeyIds;
use key_frame::check_frame;
use radius_attributes::size_in;
use refusal::Refusal;

// A Key attribute that passes the tests that need no KEK.
#[derive(Clone, Copy)]
pub struct Body<'a> {
    pub bytes: &'a [u8],
    pub ghost passes: { frame_check bytes.now ≡ pass },
}

// Attributes packed end to end, all of which pass.
#[derive(Clone, Copy)]
pub struct Bodies<'a> {
    pub bytes: &'a [u8],
    pub ghost pass: { frames_check (packed bytes.now) ≡ pass },
}

// How many bytes the first of the attributes packed in `bytes` takes: its length, or all of them where it is cut.
#[tactic(auto, unfolding(radius_attributes::specs::Attributes::whole_size, radius_attributes::specs::Attributes::size_in, radius_attributes::specs::Attributes::attribute_length))]
fn first_length(bytes: &[u8]) -> usize
    ensures { result ≡ attribute_length bytes.now }
{
    size_in(bytes).unwrap_or(bytes.len())
}

impl<'a> Body<'a> {
    ghost use Rattle.bundle_rules.specs.Bundle.{key_id_in};

    // Its Key ID.
    pub fn id(self) -> &'a [u8]
        ensures id { result.now ≡ key_id_in self.entry.bytes.now }
        ensures long { length result.now ≡ 16 }
    {
        &self.bytes[24..40]
    }
}

impl<'a> Bodies<'a> {
    ghost use Rattle.std.specs.Result.{MatchResult};
    ghost use Rattle.refusal.specs.Checks.{refuse};
    ghost use Rattle.refusal.specs.Answers.{reason_of};

    // The attributes packed in `bytes` and how many there are, tested and counted in one walk, or the refusal of the first that does not pass. One that is cut
    // is all the bytes that are left, which do not pass.
    pub fn check_and_count(bytes: &'a [u8]) -> Result<(Bodies<'a>, usize), Refusal>
        ensures { MatchResult result (λ counted. (counted.0.bytes.now ≡ bytes.now) × (counted.1 ≡ length (packed bytes.now))) (λ why. frames_check (packed bytes.now) ≡ refuse (reason_of why)) }
    {
        let mut left = bytes;
        let mut count: usize = 0;
        while !left.is_empty() {
            let (body, later) = left.split_at(first_length(left));
            check_frame(body)?;
            left = later;
            count += 1;
        }
        Ok((Bodies { bytes }, count))
    }

    // The same where nobody asks how many there are.
    pub fn check(bytes: &'a [u8]) -> Result<Bodies<'a>, Refusal>
        ensures { MatchResult result (λ bodies. bodies.bytes.now ≡ bytes.now) (λ why. frames_check (packed bytes.now) ≡ refuse (reason_of why)) }
    {
        let (bodies, _) = Bodies::check_and_count(bytes)?;
        Ok(bodies)
    }
}

impl<'a> Iterator for Bodies<'a> {
    ghost use Rattle.std.specs.Iterator.{YieldsFirstBy, item_count};
    ghost use Rattle.bundle_contents.specs.Walks.{bytes_of, bodies_left};

    type Item = Body<'a>;

    ghost next_gives = { YieldsFirstBy bytes_of bodies_left };

    ghost remaining = { item_count bodies_left };

    fn next(&mut self) -> Option<Body<'a>> {
        if self.bytes.is_empty() {
            return None;
        }
        let size = usize::from(self.bytes[1]);
        let (bytes, later) = self.bytes.split_at(size);
        self.bytes = later;
        Some(Body { bytes })
    }
}

impl<'a> KeyIds<'a> for Bodies<'a> {
    ghost use Rattle.std.specs.Prelude.{map};
    ghost use Rattle.bundle_rules.specs.Bundle.{key_id_in};
    ghost use Rattle.bundle_contents.specs.Walks.{bodies_left};

    ghost ids = { λ bodies. map key_id_in (bodies_left bodies) };

    fn next_id(&mut self) -> Option<&'a [u8]> {
        let body = self.next()?;
        Some(body.id())
    }
}
