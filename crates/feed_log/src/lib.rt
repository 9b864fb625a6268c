// The records in a stretch of a log's bytes, fed to a live monitor. The chart is read and compiled once.
#![tactic(auto)]

ghost use Rattle.std.specs.Prelude.{◌≡◌, ◌-◌, ◌≤◌, ◌<◌, length};
ghost use Rattle.rounds.specs.Machine.{Fit};
ghost use Rattle.layout.specs.Plans.{chart_of_plan};
ghost use Rattle.stepping.specs.Monitors.{monitor_at};
ghost use Rattle.monitor_image.specs.MonitorImage.{monitor_size};
ghost use Rattle.feed_log.specs.Feeds.{number_of, FedLog, FeedsTell};
ghost use Rattle.feed_log.specs.Run.{pace_from, InRange, reached_as, Ran, stop_number, bytes_after};
ghost use Rattle.feed_log.specs.Run.{finished_as, stopped_as};
ghost use Rattle.log_clock.specs.Clock.{range};

use chart_value::AcceptedChart;
use layout::Plan;
use log_check::{LogRefusal, Pace};
use log_clock::Kind;
use log_reader::{Next, RecordRefusal};
use model::{Moment, Monitor, NOT_A_CHART, NOT_FIT, Stamp};

// One count for each answer: broken, kept, dropped, entered, moved, quiet.
pub const ANSWERS: usize = 6;

// Why a call stopped: the log has no more bytes, or the monitor is broken; the bytes hold no live monitor, or an unfit
// one; or a record of the log is refused.
#[derive(Clone, Copy)]
pub enum Stop {
    End,
    Broken,
    NotAChart,
    Unfit,
    Log(LogRefusal),
}

impl From<Stop> for u8 {
    ghost use Rattle.feed_log.specs.Feeds.{number_of};

    ghost from_gives = { λ stop n. n ≡ number_of stop };

    fn from(stop: Stop) -> u8 {
        match stop {
            Stop::End => 0,
            Stop::Broken => 1,
            Stop::NotAChart => NOT_A_CHART,
            Stop::Unfit => NOT_FIT,
            Stop::Log(why) => u8::from(why),
        }
    }
}

// V22: why the call stopped, the log's kind after it and the offset just after the records taken; how many were taken,
// the number of the last answer, and how many answers there were of each number. `last` is a number, 0 for none, since
// the counts go by it and the C interface gives it.
#[derive(Clone, Copy)]
pub struct LogFed {
    pub stop: Stop,
    pub kind: Kind,
    pub place: usize,
    pub taken: u32,
    pub last: u8,
    pub counts: [u32; ANSWERS],
}

// The records taken so far: the monitor after them, the offset and the log's kind.
#[derive(Clone, Copy)]
pub struct Run {
    pub monitor: Monitor,
    pub at: usize,
    pub kind: Kind,
    pub last: u8,
    pub counts: [u32; ANSWERS],
}

// What the records still to come have in common.
fn pace_from(kind: Kind, last: Moment, first: Result<Next, RecordRefusal>) -> Pace
    ensures pace { result ≡ pace_from kind last first }
    ensures range { InRange kind × (last.0 < range) }
{
    match kind {
        Kind::Unset => log_check::pace_of(first),
        Kind::Plain => log_check::plain_pace(),
        Kind::Raw(from) => log_check::raw_pace(log_clock::gap(Stamp(last.0), from).0),
    }
}

// Where the run stands: the kind is that of the records taken, or the one that came if there are none. Six values and no
// Run: the loop has them apart, and at each of its three ends a Run would be seven lines more.
fn reached(
    kind: Kind,
    pace: Pace,
    monitor: Monitor,
    at: usize,
    last: u8,
    counts: [u32; ANSWERS],
) -> Run
    ensures { result ≡ reached_as kind pace monitor at last counts }
{
    if last == 0 {
        return Run {
            monitor,
            at,
            kind,
            last,
            counts,
        };
    }
    Run {
        monitor,
        at,
        kind: log_check::kind_in(pace.message, pace.origin, monitor.tally.now),
        last,
        counts,
    }
}

// Records are taken where they lie, up to a break, a fault or the end.
fn take_records(plan: &Plan, kind: Kind, first: Monitor, log: &[u8]) -> Run
    requires fit { Fit (chart_of_plan plan.now) (monitor_at first) }
    requires at_value { first.tally.broken.at ≡ 0 }
    ensures { Ran (chart_of_plan plan.now) log.now kind first result }
{
    let slots = plan::slots_of(plan);
    let pace = pace_from(kind, first.tally.now, log_reader::read_record(log, 0));
    let mut m = first;
    let mut at: usize = 0;
    let mut last: u8 = 0;
    let mut counts = [0u32; ANSWERS];
    // A loop by hand: it moves by each record's length.
    while at < log.len() {
        let Some(met) = log_check::met_at(log, at, pace, m.tally.now, m.tally.records) else {
            return reached(kind, pace, m, at, last, counts);
        };
        let among = slots[plan::slot_of(met.code)];
        let s = stepping::accept(plan, among, m, met.code, met.time);
        let answer = s.answer;
        last = u8::from(answer);
        let i = usize::from(last) - 1;
        counts[i] = counts[i] + 1;
        m = s.next;
        if m.tally.broken.at != 0 {
            return reached(kind, pace, m, met.past, last, counts);
        }
        at = met.past;
    }
    reached(kind, pace, m, at, last, counts)
}

// Why the run stopped.
fn stop_at(log: &[u8], at: usize, kind: Kind, m: Monitor) -> Stop
    ensures { number_of result ≡ stop_number log.now at kind m }
{
    if m.tally.broken.at != 0 {
        return Stop::Broken;
    }
    match log_check::ended_at(log, at, kind, m.tally.now, m.tally.records) {
        Ok(_) => Stop::End,
        Err(fault) => Stop::Log(fault.why),
    }
}

// The monitor after the records is written, if there are any.
fn finish(live: &mut [u8], log: &[u8], before: u32, r: Run) -> LogFed
    requires monitor_size_in_bounds { monitor_size ≤ length live.old }
    requires before_le_records { before ≤ r.monitor.tally.records }
    ensures said { result ≡ finished_as result.stop before r }
    ensures stop { number_of result.stop ≡ stop_number log.now r.at r.kind r.monitor }
    ensures bytes { live.new
        ≡ bytes_after live.old (r.monitor.tally.records - before) r.monitor }
{
    let m = r.monitor;
    let kind = r.kind;
    let counts = r.counts;
    let stop = stop_at(log, r.at, kind, m);
    let taken = m.tally.records - before;
    if taken != 0 {
        monitor_image::put_monitor(live, m);
    }
    LogFed {
        stop,
        kind,
        place: r.at,
        taken,
        last: r.last,
        counts,
    }
}

// Nothing is taken.
fn stopped(stop: Stop, kind: Kind) -> LogFed
    ensures { result ≡ stopped_as stop kind }
{
    LogFed {
        stop,
        kind,
        place: 0,
        taken: 0,
        last: 0,
        counts: [0; ANSWERS],
    }
}

// V22: feeds the records that stand in the bytes of a log, after records of a kind.
pub fn feed_log(live: &mut [u8], kind: Kind, log: &[u8]) -> LogFed
    ensures fed { FedLog live.old kind log.now result live.new }
    ensures only { FeedsTell }
    ensures unchanged { log.exit.now ≡ log.entry.now }
{
    let Some(chart) = live::chart_if_live(live) else {
        return stopped(Stop::NotAChart, kind);
    };
    let m = monitor_image::monitor_at(live);
    let accepted = AcceptedChart { chart };
    let plan = plan::compile(&accepted);
    if !monitor::is_fit(&plan, m) {
        return stopped(Stop::Unfit, kind);
    }
    if m.tally.broken.at != 0 {
        return stopped(Stop::Broken, kind);
    }
    let r = take_records(&plan, kind, m, log);
    finish(live, log, m.tally.records, r)
}
