// Offers by AT_KDF (RFC 5448, section 3.2): the peer's calls, choosing one and checking the renewed list, and the server's answer to the peer's reply.
#![tactic(auto)]

mod checks; // the tests that several calls make
mod peer; // choosing an offer, checking the renewed list
mod server; // the answer to the peer's reply

pub use peer::{FirstRound, choose, recheck};
pub use server::answer;
