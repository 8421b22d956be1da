//! Prints what is in the trace `order.bin` of the current folder.
#![tactic(auto)]

use listing::Listing;
use std::alloc::Global;
use std::fs::{File, Files};
use std::io;
use std::io::{ErrorKind, Print, Read};

/// Where the trace lies.
const TRACE: &str = "order.bin";

/// The first bytes of a file, `most` at the most; none where there is no such file.
fn read_front(files: &impl Files, alloc: Global, path: &str, most: u64) -> io::Result<Vec<u8>> {
    let mut bytes = Vec::new(alloc);
    match File::open(files, path) {
        Ok(file) => {
            let _ = file.take(most).read_to_end(&mut bytes)?;
        }
        Err(error) if error.kind() == ErrorKind::NotFound => {}
        Err(error) => return Err(error),
    }
    Ok(bytes)
}

/// Prints the listing of the trace. What lies past the bytes that tell it is left unread.
fn show(rt: &(impl Files + Print), alloc: Global) -> anyhow::Result<()> {
    let trace = read_front(rt, alloc, TRACE, Listing::bytes_needed())?;
    rt.print(Listing::new(trace.as_slice()))?;
    Ok(())
}

fn main(rt: HostRuntime) -> anyhow::Result<()> {
    show(&rt, rt.alloc())
}
