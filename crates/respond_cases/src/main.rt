// Runs the cases of its data/ folder through `respond`, the function that the printing program calls. A case is a line:
// a name, ':', the whole input in hexadecimal, '=', the numbers of the verdict or the refusal, worked out from the
// rules; a line that starts with '#' has the reason. It writes what differs, and for each file how many cases it ran
// and how many differ.
#![tactic(auto)]

use hexadecimal::COLON;
use respond::{ROOM, TooShort};
use std::fs::File;
use std::rt::Files;
use std::{fmt, io};

const HASH: u8 = b'#';

const EQUALS: u8 = b'=';

// How many cases ran, and how many of them differ.
#[derive(Clone, Copy)]
struct Tally {
    cases: usize,
    differ: usize,
}

impl fmt::Display for Tally {
    fn fmt<W: fmt::Write>(&self, f: &mut fmt::Formatter<W>) -> fmt::Result {
        write!(f, "{} cases, {} differ", self.cases, self.differ)
    }
}

// Whether the text is a refusal's one line, or the header and then the line.
fn agrees(text: &[u8], line: &[u8]) -> bool {
    let header: &[u8] = b"STANDING KEPT DROPPED RECORDS BREAK REASON REGION TERM\n";
    let said = if line.starts_with(b"r") {
        Some(text)
    } else {
        text.strip_prefix(header)
    };
    said.and_then(|rest| rest.strip_suffix(b"\n")) == Some(line)
}

// Whether the text is not as expected; if so, it says what was printed.
fn compare(rt: &impl Print, name: &[u8], text: &[u8], line: &[u8]) -> io::Result<bool> {
    if agrees(text, line) {
        return Ok(false);
    }
    rt.write_all(name)?;
    rt.write_all(b" printed ")?;
    rt.write_all(text)?;
    Ok(true)
}

fn run(rt: &impl Print, name: &[u8], input: &[u8], line: &[u8]) -> io::Result<bool> {
    let mut out = [0u8; ROOM];
    match respond::respond(input, &mut out) {
        Ok(n) => compare(rt, name, &out[..n], line),
        Err(TooShort) => Ok(true),
    }
}

fn run_digits(rt: &impl Print, name: &[u8], digits: &[u8], line: &[u8]) -> io::Result<bool> {
    let mut input = [0u8; 2048];
    let n = hexadecimal::put_bytes(digits, &mut input);
    run(rt, name, &input[..n], line)
}

// Whether the case of a line differs.
fn differs(rt: &impl Print, case: &[u8]) -> io::Result<bool> {
    let (name, rest) = hexadecimal::split_before(case, COLON);
    let (digits, rest) = hexadecimal::split_before(rest, EQUALS);
    let [_, _, line @ ..] = rest else {
        rt.write_all(case)?;
        rt.write_all(b" is no case\n")?;
        return Ok(true);
    };
    run_digits(rt, name, digits, line)
}

fn run_text(rt: &impl Print, text: &[u8]) -> io::Result<Tally> {
    let mut tally = Tally {
        cases: 0,
        differ: 0,
    };
    for line in hexadecimal::lines(text) {
        if line.first() != Some(&HASH) {
            tally.cases += 1;
            tally.differ += usize::from(differs(rt, line)?);
        }
    }
    Ok(tally)
}

fn run_file(rt: &(impl Files + Print), name: &str) -> io::Result<()> {
    let mut file = File::open(rt, name)?;
    let mut text = [0u8; 65536];
    let n = input::read_full(&mut file, &mut text)?;
    let tally = run_text(rt, &text[..n])?;
    println!(rt; "{name}: {tally}")
}

// The longest input, and one byte more: too long for a line of text.
fn run_long(rt: &impl Print) -> io::Result<()> {
    let longest = [0u8; 65536];
    let first = run(rt, b"the longest input", &longest, b"refused chart 1 at 0")?;
    let too_long = [0u8; 65537];
    let second = run(
        rt,
        b"an input too long",
        &too_long,
        b"refused input 40 at 0",
    )?;
    let differ = usize::from(first) + usize::from(second);
    let tally = Tally { cases: 2, differ };
    println!(rt; "long: {tally}")
}

fn main(rt: HostRuntime) -> io::Result<()> {
    let names = [
        "charts",
        "logs",
        "relations",
        "second_offers",
        "raw_logs",
        "rests",
    ];
    for name in names {
        run_file(&rt, name)?;
    }
    run_long(&rt)
}
