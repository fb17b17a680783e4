// Plays negotiations of the key derivation function between a peer and a server and prints each step: the checked cases P6 to P13 of
// document 01, longer lists, and negotiations in which a list or a reply was altered on the way (document 02, request 14).
#![tactic(auto)]

use offers::FirstRound;
use refusal::Refusal;
use std::io;

// Prints a text, and then the values of a list, each after a space.
fn say_list(rt: &impl Print, text: &str, list: &[u16]) -> io::Result<()> {
    print!(rt; "{text}")?;
    for value in list {
        print!(rt; " {value}")?;
    }
    Ok(())
}

// Prints a refusal by its number.
fn say_refused(rt: &impl Print, who: &str, why: Refusal) -> io::Result<()> {
    println!(rt; "  {who} refuses, {}", why.number())
}

// Prints an answer to a renewed list.
fn say_renewed(rt: &impl Print, answer: Result<u16, Refusal>) -> io::Result<()> {
    match answer {
        Ok(choice) => println!(rt; "  peer accepts {choice}"),
        Err(why) => say_refused(rt, "peer", why),
    }
}

// The peer's first round on the list that it sees. Prints its answer, and returns it.
fn play_first(
    rt: &impl Print,
    seen: &[u16],
    supported: &[u16],
) -> io::Result<Result<FirstRound, Refusal>> {
    let answer = offers::choose(seen, supported);
    match &answer {
        Ok(FirstRound::CarryOn(value)) => println!(rt; "  peer carries on with {value}")?,
        Ok(FirstRound::Ask(value, position)) => {
            println!(rt; "  peer asks for {value}, position {position}")?;
        }
        Err(why) => say_refused(rt, "peer", *why)?,
    }
    Ok(answer)
}

// The server's step on the reply that arrives, and then the step of a peer that saw a list and asked for a choice.
fn play_reply(
    rt: &impl Print,
    offered: &[u16],
    reply: u16,
    seen: &[u16],
    choice: u16,
) -> io::Result<()> {
    let mut renewed = [0u16; 17];
    match offers::answer(offered, reply, &mut renewed) {
        Err(why) => say_refused(rt, "server", why),
        Ok(count) => {
            let sent = &renewed[..count];
            say_list(rt, "  server sends", sent)?;
            println!(rt; "")?;
            say_renewed(rt, offers::recheck(seen, choice, sent))
        }
    }
}

// A negotiation in which the peer sees a list that may not be the server's, and the server gets a reply that may not be the peer's.
fn play_altered(
    rt: &impl Print,
    offered: &[u16],
    seen: &[u16],
    supported: &[u16],
    reply: u16,
) -> io::Result<()> {
    say_list(rt, "offers", offered)?;
    say_list(rt, "; peer sees", seen)?;
    say_list(rt, "; supported", supported)?;
    println!(rt; "; server gets {reply}")?;
    let Ok(first) = play_first(rt, seen, supported)? else {
        return Ok(());
    };
    let FirstRound::Ask(choice, _) = first else {
        return Ok(());
    };
    play_reply(rt, offered, reply, seen, choice)
}

// The steps of a negotiation: where the first round ends in an Ask, the server's step and the peer's on the renewed list follow.
fn play_steps(rt: &impl Print, offered: &[u16], supported: &[u16]) -> io::Result<()> {
    let Ok(first) = play_first(rt, offered, supported)? else {
        return Ok(());
    };
    let FirstRound::Ask(choice, _) = first else {
        return Ok(());
    };
    play_reply(rt, offered, choice, offered, choice)
}

// A negotiation: its steps, and then the value that both sides hold after it, as one call has it.
fn play(rt: &impl Print, offered: &[u16], supported: &[u16]) -> io::Result<()> {
    say_list(rt, "offers", offered)?;
    say_list(rt, "; supported", supported)?;
    println!(rt; "")?;
    play_steps(rt, offered, supported)?;
    let mut renewed = [0u16; 17];
    match offer_exchange::negotiate(offered, supported, &mut renewed) {
        Ok(value) => println!(rt; "  outcome {value}"),
        Err(_) => println!(rt; "  outcome none"),
    }
}

// A reply that is not the peer's own.
fn play_other_reply(rt: &impl Print, offered: &[u16], reply: u16) -> io::Result<()> {
    say_list(rt, "offers", offered)?;
    println!(rt; "; reply {reply}")?;
    play_reply(rt, offered, reply, offered, reply)
}

// A renewed list that is not the server's own.
fn play_other_list(
    rt: &impl Print,
    original: &[u16],
    choice: u16,
    renewed: &[u16],
) -> io::Result<()> {
    say_list(rt, "offers", original)?;
    print!(rt; "; choice {choice}")?;
    say_list(rt, "; renewed", renewed)?;
    println!(rt; "")?;
    say_renewed(rt, offers::recheck(original, choice, renewed))
}

// A negotiation with nothing altered, and then the same with the list thinned, with it reordered, and with the reply swapped.
fn play_request_14(rt: &impl Print) -> io::Result<()> {
    play(rt, &[3, 2, 1], &[1, 2])?;
    play_altered(rt, &[3, 2, 1], &[3, 1], &[1, 2], 1)?;
    play_altered(rt, &[3, 2, 1], &[3, 1, 2], &[1, 2], 1)?;
    play_altered(rt, &[3, 2, 1], &[3, 2, 1], &[1, 2], 1)
}

fn main(rt: HostRuntime) -> io::Result<()> {
    // P6 and P10, P7, P8, P9
    play(&rt, &[2, 1], &[1])?;
    play(&rt, &[2, 1], &[1, 2])?;
    play(&rt, &[2, 2], &[2])?;
    play(&rt, &[2, 1], &[3])?;
    // P11, P12, P13
    play_other_reply(&rt, &[2, 1], 2)?;
    play_other_reply(&rt, &[2, 1], 7)?;
    play_other_list(&rt, &[2, 1], 1, &[1, 1, 2])?;
    // the peer's own order and repeats do not count
    play(&rt, &[5, 4, 3, 2, 1], &[1, 3, 3])?;
    // the most offers, and one too many
    play(
        &rt,
        &[1, 2, 3, 4, 5, 6, 7, 8, 9, 10, 11, 12, 13, 14, 15, 16],
        &[16],
    )?;
    play(
        &rt,
        &[1, 2, 3, 4, 5, 6, 7, 8, 9, 10, 11, 12, 13, 14, 15, 16, 17],
        &[1],
    )?;
    // the choice is the first offer; the peer saw another list than the server's
    play_other_list(&rt, &[2, 1], 2, &[2, 2, 1])?;
    play_other_list(&rt, &[3, 1], 1, &[1, 2, 1])?;
    play_request_14(&rt)
}
