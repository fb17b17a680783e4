// The server's call on offers: the answer to the peer's reply (RFC 5448 section 3.2; document 01, "Offers").
ghost use Rattle.std.specs.Prelude.{◌≡◌, ◌∷◌, ◌+◌, length};
ghost use Rattle.refusal.specs.Answers.{answer_of};
ghost use Rattle.offer_rules.specs.Answers.{server_answer, server_buffer};

use crate::checks::check_reply;
use refusal::{Refusal, check_room};

// Fills out with the value and then the list.
fn put_list(value: u16, list: &[u16], out: &mut [u16])
    requires { length out.old ≡ length list.now + 1 }
    ensures { out.new ≡ value ∷ list.now }
{
    out[0] = value;
    out[1..].copy_from_slice(list);
}

// The server, on the peer's reply: writes the reply, then the entire list, and answers the new count. Order 10, 11, 13, 14, 6.
#[tactic(auto, unfolding(offer_rules::specs::Answers::server_answer, offer_rules::specs::Answers::server_buffer, offer_rules::specs::Rfc5448::answer_check), using(crate::proofs::server::Room::room_left))]
pub fn answer(offers: &[u16], reply: u16, out: &mut [u16]) -> Result<usize, Refusal>
    ensures answer { answer_of result ≡ server_answer offers.now reply out.old }
    ensures buffer { out.new ≡ server_buffer offers.now reply out.old }
{
    let count = offers.len() + 1;
    check_reply(offers, reply)?;
    check_room(count, out.len())?;
    put_list(reply, offers, &mut out[..count]);
    Ok(count)
}
