// Prints what changed between two bundles (document 02, request 10): `compare_bundles FIRST SECOND` writes a line for each Key ID that differs
// between the two files, and then the counts. Where a file is refused it writes the number instead, and which file it is. What keeps it from
// comparing, as a file that cannot be read, goes to standard error, with status 0 too. The status is another only where writing fails.
#![tactic(auto)]

use bundle_compare::{Counts, compare_bundles};
use bundle_contents::check_bundle;
use refusal::Refusal;
use std::env::FillError;
use std::fs::File;
use std::io;
use std::io::Read;
use std::rt::{Env, Files};

// The most bytes that a bundle has.
const LARGEST: usize = 17410;

// Writes a line to standard error: what failed, and the system's words for why.
fn fail(rt: &(impl Eprint + AllocGlobal), what: &str, why: io::Error) -> io::Result<()> {
    let text = format!(in rt.alloc(); "{why}")?;
    let words = text
        .split_once(" (os error")
        .map_or(text.as_str(), |it| it.0);
    eprintln!(rt; "{what}: {words}")
}

// Reads the open file to its end, or until there is more than a bundle has. Where it cannot be read it tells why, and answers nothing.
fn read_open(
    rt: &(impl Eprint + AllocGlobal),
    file: impl Read + Drop,
    path: &str,
) -> io::Result<Option<Vec<u8>>> {
    let mut bytes = Vec::new(rt.alloc());
    match file.take(LARGEST as u64 + 1).read_to_end(&mut bytes) {
        Ok(_) => Ok(Some(bytes)),
        Err(why) => {
            fail(rt, path, why)?;
            Ok(None)
        }
    }
}

// Reads the file that argument i names, in the same way.
fn read_argument(
    rt: &(impl Env + Files + Eprint + AllocGlobal),
    i: usize,
) -> io::Result<Option<Vec<u8>>> {
    let mut name = [0u8; 4096];
    let Ok(length) = rt.arg(i, &mut name) else {
        eprintln!(rt; "file name: File name too long")?;
        return Ok(None);
    };
    let Ok(path) = str::from_utf8(&name[..length]) else {
        eprintln!(rt; "file name: not UTF-8")?;
        return Ok(None);
    };
    match File::open(rt, path) {
        Ok(file) => read_open(rt, file, path),
        Err(why) => {
            fail(rt, path, why)?;
            Ok(None)
        }
    }
}

// Writes a Key ID, two digits for each byte.
fn write_id(rt: &impl Print, id: &[u8]) -> io::Result<()> {
    for byte in id {
        print!(rt; "{byte:02x}")?;
    }
    Ok(())
}

// Writes the line of an entry.
fn write_entry(rt: &impl Print, kind: u8, id: &[u8]) -> io::Result<()> {
    match kind {
        1 => print!(rt; "only in the first   ")?,
        2 => print!(rt; "changed             ")?,
        _ => print!(rt; "only in the second  ")?,
    }
    write_id(rt, id)?;
    println!(rt; "")
}

// Writes the lines of entries that stand end to end.
fn write_entries(rt: &impl Print, entries: &[u8]) -> io::Result<()> {
    for entry in entries.chunks_exact(17) {
        write_entry(rt, entry[0], &entry[1..])?;
    }
    Ok(())
}

// Writes the line of the counts.
fn write_counts(rt: &impl Print, counts: Counts) -> io::Result<()> {
    let Counts {
        only_first,
        changed,
        only_second,
    } = counts;
    println!(rt;
        "{only_first} only in the first, {changed} changed, {only_second} only in the second"
    )
}

// Writes a refusal, and which file it is about: the first where that is refused by itself, else the second. The room is enough for any two.
fn write_refusal(rt: &impl Print, first: &[u8], why: Refusal) -> io::Result<()> {
    let number = why.number();
    match check_bundle(first) {
        Err(_) => println!(rt; "refused {number}: the first file"),
        Ok(()) => println!(rt; "refused {number}: the second file"),
    }
}

// Writes what changed between two files.
fn compare(rt: &impl Print, first: &[u8], second: &[u8]) -> io::Result<()> {
    let mut out = [0u8; 2176];
    match compare_bundles(first, second, &mut out) {
        Err(why) => write_refusal(rt, first, why),
        Ok(counts) => {
            let entries = (counts.only_first + counts.changed + counts.only_second) as usize;
            let end = 17 * entries;
            write_entries(rt, &out[..end])?;
            write_counts(rt, counts)
        }
    }
}

// Whether there is an argument i.
fn has_argument(rt: &impl Env, i: usize) -> bool {
    let mut start = [0u8; 1];
    !matches!(rt.arg(i, &mut start), Err(FillError::NotPresent))
}

fn main(rt: HostRuntime) -> io::Result<()> {
    if !has_argument(&rt, 2) || has_argument(&rt, 3) {
        return eprintln!(rt; "usage: compare_bundles FIRST SECOND");
    }
    let Some(first) = read_argument(&rt, 1)? else {
        return Ok(());
    };
    let Some(second) = read_argument(&rt, 2)? else {
        return Ok(());
    };
    if first.len() > LARGEST {
        return println!(rt; "the first file has over 17,410 bytes, which no bundle has");
    }
    if second.len() > LARGEST {
        return println!(rt; "the second file has over 17,410 bytes, which no bundle has");
    }
    compare(&rt, &first, &second)
}
