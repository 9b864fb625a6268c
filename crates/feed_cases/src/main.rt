// Feeds logs to charts record by record. Standard input has a line for each: a name, ':', the chart's bytes in
// hexadecimal, '/', the log's. Before each record it writes what is shown at its moment: 0 or the refusal's number, a
// byte for each region, and the byte after them, which was 9 before. Then, of the feed, the answer's number, its region
// and term, and of the monitor handed back: fired regions as a set, now, records, kept, dropped, break, reason, region,
// term, and each clock's reset moment. At last, of the whole log, whether it breaks the chart: yes, no, or the refusal's
// number and offset. The expected lines, in the file stdout, are worked out from the rules.
#![tactic(auto)]

use hexadecimal::COLON;
use log_clock::Kind;
use model::{Cause, Chart, MOST_REGIONS, Moment, Monitor};
use std::io;
use stepping::Step;

const SLASH: u8 = b'/';

// One byte for each region, and one more.
const ROOM: usize = MOST_REGIONS + 1;

// What the buffer holds before.
const STAYS: u8 = 9;

fn put_cause(rt: &impl Print, x: Cause) -> io::Result<()> {
    print!(rt; " {} {}", x.region, x.term)
}

fn put_moments(rt: &impl Print, moments: &[Moment]) -> io::Result<()> {
    for t in moments {
        print!(rt; " {}", t.0)?;
    }
    Ok(())
}

fn put_monitor(rt: &impl Print, m: &Monitor) -> io::Result<()> {
    let tally = m.tally;
    let broken = tally.broken;
    print!(rt; " {} {} {}", m.place.fired, tally.now.0, tally.records)?;
    print!(rt; " {} {}", tally.kept, tally.dropped)?;
    print!(rt; " {} {}", broken.at, broken.reason)?;
    put_cause(rt, broken.cause)?;
    put_moments(rt, &m.place.resets)
}

fn put_step(rt: &impl Print, s: &Step) -> io::Result<()> {
    let answer = s.answer;
    print!(rt; " {}", model::fed_number(answer))?;
    put_cause(rt, model::fed_cause(answer))?;
    put_monitor(rt, &s.next)?;
    println!(rt)
}

// What is shown at a moment, and the byte after it.
fn put_preview(rt: &impl Print, c: Chart, m: Monitor, t: Moment) -> io::Result<()> {
    let mut bytes = [STAYS; ROOM];
    let answer = preview::preview(c, m, t, &mut bytes);
    print!(rt; " shows {}", preview::number(answer))?;
    for b in bytes.iter().take(c.count as usize + 1) {
        print!(rt; " {b}")?;
    }
    println!(rt)
}

// Feeds the log's records from the left, each at its moment, as far as there are records with moments.
fn put_feeds(rt: &impl Print, c: Chart, log: &[u8]) -> io::Result<()> {
    let made = monitor::new(c);
    let mut m = made.monitor;
    let mut at = 0;
    let mut kind = Kind::Unset;
    let mut last = Moment(0);
    // A log has no more records than bytes.
    for _ in 0..log.len() {
        let Ok(Some(dated)) = log_clock::record_at(log, at, kind, last) else {
            return Ok(());
        };
        let t = model::time_of(dated.item);
        put_preview(rt, c, m, t)?;
        let s = monitor::feed(c, m, dated.item);
        put_step(rt, &s)?;
        m = s.next;
        at = dated.past;
        kind = dated.kind;
        last = t;
    }
    Ok(())
}

fn put_refusal(rt: &impl Print, number: u8, offset: usize) -> io::Result<()> {
    println!(rt; " refused {number} at {offset}")
}

// Whether the log breaks the chart.
fn put_asked(rt: &impl Print, c: Chart, log: &[u8]) -> io::Result<()> {
    match breaks::breaks(c, log) {
        Ok(true) => println!(rt; " yes"),
        Ok(false) => println!(rt; " no"),
        Err(refusal) => put_refusal(rt, u8::from(refusal), refusal.offset()),
    }
}

// One line: a name, the chart's digits and the log's.
fn show(rt: &impl Print, line: &[u8]) -> io::Result<()> {
    let (name, rest) = hexadecimal::split_before(line, COLON);
    let (chart_digits, log_digits) = hexadecimal::split_before(rest, SLASH);
    let mut chart = [0u8; 256];
    let chart_length = hexadecimal::put_bytes(chart_digits, &mut chart);
    let mut log = [0u8; 256];
    let log_length = hexadecimal::put_bytes(log_digits, &mut log);
    rt.write_all(name)?;
    println!(rt)?;
    let read = chart_reader::read(&chart[..chart_length]);
    put_feeds(rt, read.chart, &log[..log_length])?;
    put_asked(rt, read.chart, &log[..log_length])
}

fn main(rt: HostRuntime) -> io::Result<()> {
    let mut text = [0u8; 65536];
    let n = input::read_full(&mut rt.reader(), &mut text)?;
    for line in hexadecimal::lines(&text[..n]) {
        show(&rt, line)?;
    }
    Ok(())
}
