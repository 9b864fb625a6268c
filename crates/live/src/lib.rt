// A live monitor in bytes that the caller keeps: opened for a chart, fed records, asked for its standing.
#![tactic(auto)]

ghost use Rattle.std.specs.Prelude.{◌≡◌, true, ◌+◌, ◌≤◌, length, OnOk};
ghost use Rattle.wire.specs.Writing.{Wrote, starting_with};
ghost use Rattle.base.specs.Lists.{ε};
ghost use Rattle.stepping.specs.Answers.{HandsBack};
ghost use Rattle.stepping.specs.Monitors.{step_of};
ghost use Rattle.monitor.specs.Feed.{feed_of};
ghost use Rattle.monitor_image.specs.MonitorImage.{monitor_size, monitor_in};
ghost use Rattle.live.specs.Live.{head_size, chart_in, chart_if_live, live_size, fresh_bytes, told, opened_of};
ghost use Rattle.live.specs.Live.{bytes_opened, Holds, LiveFedBy, LiveFed, standing_by, standing_in};
ghost use Rattle.live.specs.History.{LiveHistory, Extends, LiveClaims};

use chart_step::Fault;
use chart_value::AcceptedChart;
use model::{Answer, Chart, FeedRefusal, Monitor, Record, Verdict};
use monitor_image::MONITOR_SIZE;
use stepping::Step;

// The monitor's image and the chart's length.
const HEAD_SIZE: usize = 67;

// The largest usize.
const LARGEST: usize = 0xffff_ffff_ffff_ffff;

// V10: why nothing is opened: the chart's fault with its offset, or a buffer below the size of the live monitor.
#[derive(Clone, Copy)]
pub enum OpenRefusal {
    Chart(Fault),
    TooShort(usize),
}

// V9: the size of a live monitor, by the length of its chart.
pub fn size(bytes: usize) -> usize
    ensures { result ≡ live_size bytes }
{
    if LARGEST - HEAD_SIZE < bytes {
        return LARGEST;
    }
    HEAD_SIZE + bytes
}

// The chart behind the head. A loop: `copy_from_slice` of two slices that come from outside calls memmove, which the
// archives ask of no host.
fn put_chart(live: &mut [u8], chart: &[u8])
    requires { head_size + length chart.now ≤ length live.old }
    ensures { Wrote live.old head_size chart.now live.new (head_size + length chart.now) }
{
    for i in 0..chart.len() {
        live[HEAD_SIZE + i] = chart[i];
    }
}

// A fresh live monitor at the start of the buffer.
fn put_fresh(live: &mut [u8], chart: &[u8])
    requires { head_size + length chart.now ≤ length live.old }
    ensures { live.new ≡ starting_with (fresh_bytes chart.now) live.old }
{
    monitor_image::put_monitor(live, model::zero_monitor());
    wire::put_bytes(live, MONITOR_SIZE, &u64::to_be_bytes(chart.len() as u64));
    put_chart(live, chart);
}

// V10: puts a live monitor for the chart into the buffer, if it has room for it, and gives its size.
pub fn open(chart: &[u8], live: &mut [u8]) -> Result<usize, OpenRefusal>
    ensures answer { told result ≡ opened_of chart.now (length live.old) }
    ensures bytes { live.new ≡ bytes_opened chart.now live.old }
    ensures holds { OnOk result (Holds chart.now live.new) }
    ensures history { OnOk result (LiveHistory chart.now ε ε live.new) }
    ensures unchanged { chart.exit.now ≡ chart.entry.now }
{
    let read = chart_reader::read(chart);
    if let Err(fault) = read.answer {
        return Err(OpenRefusal::Chart(fault));
    }
    let wanted = size(chart.len());
    if live.len() < wanted {
        return Err(OpenRefusal::TooShort(wanted));
    }
    put_fresh(live, chart);
    Ok(wanted)
}

// The chart in the bytes, if they hold a live monitor.
pub fn chart_if_live(live: &[u8]) -> Option<Chart>
    ensures { result ≡ chart_if_live live.now }
{
    if live.len() < HEAD_SIZE {
        return None;
    }
    let rest = live.len() - HEAD_SIZE;
    let n = wire::word64_at(live, MONITOR_SIZE);
    if (rest as u64) < n {
        return None;
    }
    let end = HEAD_SIZE + n as usize;
    let read = chart_reader::read(&live[HEAD_SIZE..end]);
    match read.answer {
        Ok(()) => Some(read.chart),
        Err(_) => None,
    }
}

// The chart in the bytes; zeros if they hold no live monitor.
pub fn chart_in(live: &[u8]) -> Chart
    ensures { result ≡ chart_in live.now }
{
    match chart_if_live(live) {
        Some(chart) => chart,
        None => model::zero_chart(),
    }
}

// The monitor that a feed handed back is written, unless the record was refused or the monitor was broken before.
fn put_fed(bytes: &mut [u8], m: Monitor, s: Step) -> Result<Answer, FeedRefusal>
    requires { monitor_size ≤ length bytes.old }
    ensures { (chart : Chart) (e : Record) → m ≡ monitor_in bytes.old → step_of s ≡ feed_of chart m e
        → HandsBack m s → LiveFedBy chart bytes.old e result bytes.new }
{
    let answer = s.answer?;
    if m.tally.broken.at == 0 {
        monitor_image::put_monitor(bytes, s.next);
    }
    Ok(answer)
}

// One record fed to the monitor whose image starts the bytes, for any chart value.
pub fn feed_chart(chart: Chart, bytes: &mut [u8], e: Record) -> Result<Answer, FeedRefusal>
    requires { monitor_size ≤ length bytes.old }
    ensures { LiveFedBy chart bytes.old e result bytes.new }
{
    let m = monitor_image::monitor_at(bytes);
    put_fed(bytes, m, monitor::feed(chart, m, e))
}

// One record fed to the live monitor. The chart in it was just read, and is not tested again.
pub fn feed(live: &mut [u8], e: Record) -> Result<Answer, FeedRefusal>
    ensures fed { LiveFed live.old e result live.new }
    ensures history { Extends live.old e result live.new }
{
    let Some(chart) = chart_if_live(live) else {
        return Err(FeedRefusal::NotAChart);
    };
    let accepted = AcceptedChart { chart };
    let m = monitor_image::monitor_at(live);
    put_fed(live, m, monitor::feed_accepted(&accepted, m, e))
}

// V12: the verdict so far of a monitor for a chart.
fn standing_of(chart: Chart, m: Monitor) -> Result<Verdict, FeedRefusal>
    ensures { result ≡ standing_by chart m }
{
    let Ok(accepted) = AcceptedChart::try_from(chart) else {
        return Err(FeedRefusal::NotAChart);
    };
    let plan = plan::compile(&accepted);
    if !monitor::is_fit(&plan, m) {
        return Err(FeedRefusal::Unfit);
    }
    Ok(verdict::verdict_of(&accepted, m))
}

// The standing of the monitor in the bytes.
pub fn standing(live: &[u8]) -> Result<Verdict, FeedRefusal>
    ensures value { result ≡ standing_in live.now }
    ensures unchanged { live.exit.now ≡ live.entry.now }
{
    let Some(chart) = chart_if_live(live) else {
        return Err(FeedRefusal::NotAChart);
    };
    standing_of(chart, monitor_image::monitor_at(live))
}

// V3, V13: which bytes hold a live monitor, and that feeding them is feeding the monitor in them.
pub fn live_histories()
    ensures { LiveClaims }
{}
