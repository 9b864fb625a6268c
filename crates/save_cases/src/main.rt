// Saves charts. Standard input has a line for each: a name, ':', and bytes in hexadecimal that are read as a chart. It
// writes the reader's number and offset; then, for a buffer of 64 bytes and for one of 10, all of them `a5` before, the
// number that saving answers, the length that it tells, and the buffer's bytes up to the first after that length. The
// expected lines, in the file stdout, are worked out from the rules.
#![tactic(auto)]

use chart_step::Fault;
use hexadecimal::COLON;
use model::Chart;
use std::io;

// What a buffer holds before.
const STAYS: u8 = 0xa5;

fn put_byte(rt: &impl Print, b: u8) -> io::Result<()> {
    let text = [
        b' ',
        hexadecimal::low_digit(b / 16),
        hexadecimal::low_digit(b),
    ];
    rt.write_all(&text)
}

// The bytes before a length, and the one after them.
fn put_bytes(rt: &impl Print, bytes: &[u8], length: usize) -> io::Result<()> {
    for b in bytes.iter().take(length.saturating_add(1)) {
        put_byte(rt, *b)?;
    }
    Ok(())
}

fn put_saved(rt: &impl Print, c: Chart, out: &mut [u8]) -> io::Result<()> {
    let saved = chart_writer::write(c, out);
    let length = chart_writer::size(saved);
    print!(rt; " {} {length}:", chart_writer::number(saved))?;
    put_bytes(rt, out, length)?;
    println!(rt)
}

fn put_answer(rt: &impl Print, answer: Result<(), Fault>) -> io::Result<()> {
    match answer {
        Ok(()) => println!(rt; " accepted"),
        Err(fault) => { println!(rt; " refused {} at {}", u8::from(fault.refusal), fault.offset) }
    }
}

// One line: the name, and the chart's digits.
fn show(rt: &impl Print, line: &[u8]) -> io::Result<()> {
    let (name, digits) = hexadecimal::split_before(line, COLON);
    let mut bytes = [0u8; 256];
    let n = hexadecimal::put_bytes(digits, &mut bytes);
    let read = chart_reader::read(&bytes[..n]);
    let answer = read.answer;
    let mut wide = [STAYS; 64];
    let mut narrow = [STAYS; 10];
    rt.write_all(name)?;
    println!(rt)?;
    put_answer(rt, answer)?;
    put_saved(rt, read.chart, &mut wide)?;
    put_saved(rt, read.chart, &mut narrow)
}

fn main(rt: HostRuntime) -> io::Result<()> {
    let mut text = [0u8; 65536];
    let n = input::read_full(&mut rt.reader(), &mut text)?;
    for line in hexadecimal::lines(&text[..n]) {
        show(&rt, line)?;
    }
    Ok(())
}
