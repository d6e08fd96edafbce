// The lister: a saved layout on standard input, the tiles of its plane on standard output, one a line.
#![tactic(auto)]

mod input;
mod listing;
mod text;

use std::io;
use std::process::ExitCode;
use table::numbers::WIDTH;

// The most bytes that are read, the records of the table, and the room for one line.
const BYTES: usize = 8020;

const RECORDS: usize = 1616;

const LINE: usize = 80;

// Tells on standard error which stream failed, and why.
fn failed(rt: &impl Eprint, stream: &str, error: io::Error) -> ExitCode {
    let _ = eprintln!(rt; "lister: standard {stream}: {error}");
    ExitCode::FAILURE
}

fn main(rt: HostRuntime) -> ExitCode {
    let mut bytes = [0u8; BYTES];
    let count = match input::read_layout(&mut rt.stdin(), &mut bytes) {
        Ok(count) => count,
        Err(error) => return failed(&rt, "input", error),
    };
    let mut table = [0i32; WIDTH * RECORDS];
    let mut list = [0i32; RECORDS];
    let mut text = [0u8; LINE * RECORDS];
    let n = listing::list(&mut table, &bytes[..count], &mut list, &mut text);
    match rt.write_all(&text[..n]) {
        Ok(()) => ExitCode::SUCCESS,
        Err(error) => failed(&rt, "output", error),
    }
}
