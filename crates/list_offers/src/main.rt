// Lists the offers of an attribute area (document 01, "Checked cases"): reads the area from standard input and writes its offers
// and the length of its name, or the refusal, to standard output. The peer's own name that it lends is empty, so it reads leniently.
#![tactic(auto)]

use area_format::Way;
use std::io;
use std::io::Read;

// The most bytes that an area may have here.
const LIMIT: usize = 4096;

// Writes what the area holds, or why it is refused.
fn list(rt: &impl Print, bytes: &[u8]) -> io::Result<()> {
    let mut out = [0u16; 17];
    match area::read_area(bytes, b"", Way::Lenient, &mut out) {
        Err(why) => println!(rt; "refused {}", why.number()),
        Ok(offered) => {
            println!(rt; "offers {}", offered.count)?;
            for offer in &out[..offered.count] {
                println!(rt; "kdf {offer}")?;
            }
            println!(rt; "name {}", offered.name_len)
        }
    }
}

fn main(rt: HostRuntime) -> io::Result<()> {
    let mut bytes = Vec::new(rt.alloc());
    rt.reader().take(LIMIT as u64 + 1).read_to_end(&mut bytes)?;
    if bytes.len() > LIMIT {
        return println!(rt; "too long");
    }
    list(&rt, &bytes)
}
