// V9 to V12, V17: the exported functions of live monitors. 0 is success, 12 a buffer with too few places.
#![tactic(auto)]

ghost use Rattle.std.specs.Prelude.{◌≡◌, length};
ghost use Rattle.model.specs.declared.Record.TheVariants.{Message as MessageAt, Time as TimeAt};
ghost use Rattle.live.specs.Live.{live_size, opened_of, bytes_opened, Holds, LiveFed, standing_in};
ghost use Rattle.lsc_live.specs.Lsc.{FedNumber, FedWhy, FeedsTell, standing_number};
ghost use Rattle.lsc_live.specs.Lsc.{standing_out};

use live::OpenRefusal;
use model::{Answer, FeedRefusal, Message, Moment, PLACES, Record, TOO_SHORT};

// The size of a live monitor, by the length of its chart.
#[unsafe(no_mangle)]
pub extern "C" fn lsc_live_size(bytes: usize) -> usize
    ensures { result ≡ live_size bytes }
{
    live::size(bytes)
}

// Puts a fresh live monitor for the chart into the buffer.
#[unsafe(no_mangle)]
pub extern "C" fn lsc_open(chart: &[u8], live: &mut [u8], at: &mut u64) -> u8
    ensures number { result ≡ (opened_of chart.now (length live.old)).number }
    ensures at { at.new ≡ (opened_of chart.now (length live.old)).at }
    ensures bytes { live.new ≡ bytes_opened chart.now live.old }
    ensures holds { result ≡ 0 → Holds chart.now live.new }
    ensures unchanged { chart.exit.now ≡ chart.entry.now }
{
    match live::open(chart, live) {
        Ok(size) => {
            *at = size as u64;
            0
        }
        Err(OpenRefusal::Chart(fault)) => {
            *at = fault.offset as u64;
            u8::from(fault.refusal)
        }
        Err(OpenRefusal::TooShort(size)) => {
            *at = size as u64;
            TOO_SHORT
        }
    }
}

// One message fed to the live monitor.
fn feed_message(
    live: &mut [u8],
    source: u8,
    destination: u8,
    label: u16,
    time: u32,
) -> Result<Answer, FeedRefusal>
    ensures { LiveFed live.old
        (MessageAt (record { source = source; destination = destination; label = label }) (record { 0 = time }))
        result live.new }
{
    let message = Message {
        source,
        destination,
        label,
    };
    live::feed(live, Record::Message(message, Moment(time)))
}

// Feeds a message to the live monitor.
#[unsafe(no_mangle)]
pub extern "C" fn lsc_feed_message(
    live: &mut [u8],
    source: u8,
    destination: u8,
    label: u16,
    time: u32,
) -> u8
    ensures { FedNumber live.old
        (MessageAt (record { source = source; destination = destination; label = label }) (record { 0 = time }))
        result live.new }
{
    model::fed_number(feed_message(live, source, destination, label, time))
}

// V17: the same, with the answer's region and term.
#[unsafe(no_mangle)]
pub extern "C" fn lsc_feed_message_why(
    live: &mut [u8],
    source: u8,
    destination: u8,
    label: u16,
    time: u32,
    region: &mut u64,
    term: &mut u64,
) -> u8
    ensures fed { FedWhy live.old
        (MessageAt (record { source = source; destination = destination; label = label }) (record { 0 = time }))
        result region.new term.new live.new }
    ensures only { FeedsTell }
{
    let fed = feed_message(live, source, destination, label, time);
    let cause = model::fed_cause(fed);
    *region = u64::from(cause.region);
    *term = u64::from(cause.term);
    model::fed_number(fed)
}

// Feeds a record of time to the live monitor.
#[unsafe(no_mangle)]
pub extern "C" fn lsc_feed_time(live: &mut [u8], time: u32) -> u8
    ensures { FedNumber live.old (TimeAt (record { 0 = time })) result live.new }
{
    model::fed_number(live::feed(live, Record::Time(Moment(time))))
}

// The standing of the live monitor.
#[unsafe(no_mangle)]
pub extern "C" fn lsc_standing(live: &[u8], out: &mut [u64]) -> u8
    ensures number { result ≡ standing_number (standing_in live.now) out.old }
    ensures numbers { out.new ≡ standing_out (standing_in live.now) out.old }
    ensures unchanged { live.exit.now ≡ live.entry.now }
{
    let verdict = match live::standing(live) {
        Ok(verdict) => verdict,
        Err(refusal) => return u8::from(refusal),
    };
    if out.len() < PLACES {
        return TOO_SHORT;
    }
    model::put_verdict(out, verdict);
    0
}
