// The printing program: standard input is a chart's length in two bytes, the chart and the log. It reads to the end, or
// to one byte past the limit, and writes what `respond` says.
#![tactic(auto)]

use respond::{ROOM, TooShort};
use std::io;

fn main(rt: HostRuntime) -> io::Result<()> {
    let mut input = [0u8; 65537];
    let n = input::read_full(&mut rt.reader(), &mut input)?;
    let mut out = [0u8; ROOM];
    match respond::respond(&input[..n], &mut out) {
        Ok(m) => rt.write_all(&out[..m]),
        Err(TooShort) => Ok(()),
    }
}
