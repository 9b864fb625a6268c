// V16: the exported functions that only tests use: a monitor made and fed by its image, the check of a log, and for the
// chart in an image whether a log breaks it, and its bytes. 12 is a buffer with too few places.
#![tactic(auto)]

ghost use Rattle.std.specs.Prelude.{◌≡◌};
ghost use Rattle.model.specs.declared.Record.TheVariants.{Message as MessageAt, Time as TimeAt};
ghost use Rattle.monitor.specs.Feed.{made_number};
ghost use Rattle.log_check.specs.Check.{check_log};
ghost use Rattle.lsc_test.specs.Images.{new_number, new_bytes, FedImage};
ghost use Rattle.chart_image.specs.ChartImage.{chart_value_of};
ghost use Rattle.breaks.specs.Breaks.{breaks_of};
ghost use Rattle.chart_writer.specs.Save.{saved_answer, saved_buffer, saved_number, saved_size};
ghost use Rattle.lsc_test.specs.Checks.{checked_count, asked_code};

use chart_value::NotAChart;
use log_check::JudgeRefusal;
use model::{Message, Moment, Record, TOO_SHORT};

// What the check returns for a refused log: more than any log without a fault has.
const REFUSED: u32 = 1_000_001;

// The number of the answer to making a monitor.
fn made_number(a: Result<(), NotAChart>) -> u8
    ensures { result ≡ made_number a }
{
    match a {
        Ok(()) => 0,
        Err(NotAChart) => model::NOT_A_CHART,
    }
}

// The number of the answer whether a log breaks a chart.
fn asked_code(a: Result<bool, JudgeRefusal>) -> u8
    ensures { result ≡ asked_code a }
{
    match a {
        Ok(yes) => u8::from(yes),
        Err(refusal) => u8::from(refusal),
    }
}

// One record fed to a monitor by its image, for the chart value in a chart's image.
fn feed_image(chart: &[u8], bytes: &mut [u8], e: Record) -> u8
    ensures fed { FedImage chart.now bytes.old e result bytes.new }
    ensures unchanged { chart.exit.now ≡ chart.entry.now }
{
    if bytes.len() < monitor_image::MONITOR_SIZE {
        return TOO_SHORT;
    }
    model::fed_number(live::feed_chart(chart_image::chart_at(chart), bytes, e))
}

// Makes a monitor for the chart value in an image.
#[unsafe(no_mangle)]
pub extern "C" fn lsc_test_new(chart: &[u8], monitor: &mut [u8]) -> u8
    ensures number { result ≡ new_number chart.now monitor.old }
    ensures bytes { monitor.new ≡ new_bytes monitor.old }
    ensures unchanged { chart.exit.now ≡ chart.entry.now }
{
    if monitor.len() < monitor_image::MONITOR_SIZE {
        return TOO_SHORT;
    }
    let made = monitor::new(chart_image::chart_at(chart));
    let answer = made.answer;
    let fresh = made.monitor;
    monitor_image::put_monitor(monitor, fresh);
    made_number(answer)
}

// Feeds a message to a monitor by its image.
#[unsafe(no_mangle)]
pub extern "C" fn lsc_test_feed_message(
    chart: &[u8],
    monitor: &mut [u8],
    source: u8,
    destination: u8,
    label: u16,
    time: u32,
) -> u8
    ensures fed { FedImage chart.now monitor.old
        (MessageAt (record { source = source; destination = destination; label = label }) (record { 0 = time }))
        result monitor.new }
    ensures unchanged { chart.exit.now ≡ chart.entry.now }
{
    let message = Message {
        source,
        destination,
        label,
    };
    feed_image(chart, monitor, Record::Message(message, Moment(time)))
}

// Feeds a record of time to a monitor by its image.
#[unsafe(no_mangle)]
pub extern "C" fn lsc_test_feed_time(chart: &[u8], monitor: &mut [u8], time: u32) -> u8
    ensures fed { FedImage chart.now monitor.old (TimeAt (record { 0 = time }))
        result monitor.new }
    ensures unchanged { chart.exit.now ≡ chart.entry.now }
{
    feed_image(chart, monitor, Record::Time(Moment(time)))
}

// Checks a whole log, and returns how many records it has; one more than the most if it is refused.
#[unsafe(no_mangle)]
pub extern "C" fn lsc_test_check(log: &[u8]) -> u32
    ensures count { result ≡ checked_count (check_log log.now) }
    ensures unchanged { log.exit.now ≡ log.entry.now }
{
    match log_check::check_log(log) {
        Ok(records) => records,
        Err(_) => REFUSED,
    }
}

// Asks whether a log breaks the chart value in an image.
#[unsafe(no_mangle)]
pub extern "C" fn lsc_test_breaks(chart: &[u8], log: &[u8]) -> u8
    ensures number { result ≡ asked_code (breaks_of (chart_value_of chart.now) log.now) }
    ensures unchanged { (chart.exit.now ≡ chart.entry.now) × (log.exit.now ≡ log.entry.now) }
{
    asked_code(breaks::breaks(chart_image::chart_at(chart), log))
}

// Saves the chart value in an image.
#[unsafe(no_mangle)]
pub extern "C" fn lsc_test_write(image: &[u8], out: &mut [u8], at: &mut u64) -> u8
    ensures number { result ≡ saved_number (saved_answer (chart_value_of image.now) out.old) }
    ensures at { at.new
        ≡ saved_size (saved_answer (chart_value_of image.now) out.old) }
    ensures bytes { out.new ≡ saved_buffer (chart_value_of image.now) out.old }
    ensures unchanged { image.exit.now ≡ image.entry.now }
{
    let saved = chart_writer::write(chart_image::chart_at(image), out);
    *at = chart_writer::size(saved) as u64;
    chart_writer::number(saved)
}
