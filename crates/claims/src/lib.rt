// What is claimed of the operations. The first demand is in the contracts of functions that call one operation each:
// two here, one in `log_claims`, two in `feed_claims`. The second and the third are in `claims`, of the definitions
// that the operations cite; `watch` has the third of a chart and a log in bytes.
#![tactic(auto)]

ghost use Rattle.std.specs.Prelude.{◌≡◌};
ghost use Rattle.model.specs.Monitor.{zero_monitor};
ghost use Rattle.chart_reader.specs.Said.{said as read_said};
ghost use Rattle.judge.specs.Said.{said as judge_said};
ghost use Rattle.claims.specs.Claims.{Claims};
ghost use Rattle.base.specs.Just.{Just};
ghost use Rattle.claims.specs.Demand1.{ReadsAs, JudgesAs};
ghost use Rattle.log_clock.specs.Records.{records_in};
ghost use Rattle.claims.specs.Watch.{FedAll, Watches};

use chart_reader::ChartRead;
use chart_step::Fault;
use judge::Judgement;
use log_clock::Kind;
use model::{Chart, Moment, Monitor};

// Reading a chart: every byte string.
pub fn read_chart(bytes: &[u8]) -> ChartRead
    ensures demand { Just (ReadsAs bytes.now) (read_said result) }
    ensures unchanged { bytes.exit.now ≡ bytes.entry.now }
{
    chart_reader::read(bytes)
}

// Judging a whole log: every chart value and byte string.
pub fn judge_log(chart: Chart, log: &[u8]) -> Judgement
    ensures demand { Just (JudgesAs chart log.now) (judge_said result) }
    ensures unchanged { log.exit.now ≡ log.entry.now }
{
    judge::judge(chart, log)
}

// What reading the chart said, and the monitor after the log's records.
#[derive(Clone, Copy)]
pub struct Watched {
    pub answer: Result<(), Fault>,
    pub monitor: Monitor,
}

// Feeds the log's records from the left, each at its moment, whatever each feed answers.
fn feed_all(chart: Chart, log: &[u8], fresh: Monitor) -> Monitor
    requires { fresh ≡ zero_monitor }
    ensures { FedAll chart (records_in log.now) result }
{
    let mut m = fresh;
    let mut at: usize = 0;
    let mut kind = Kind::Unset;
    let mut last = Moment(0);
    for _ in 0..log.len() {
        let Ok(Some(d)) = log_clock::record_at(log, at, kind, last) else {
            return m;
        };
        m = monitor::feed(chart, m, d.item).next;
        at = d.past;
        kind = d.kind;
        last = model::time_of(d.item);
    }
    m
}

// Reads a chart, makes its monitor and feeds it the records of a log.
pub fn watch(chart: &[u8], log: &[u8]) -> Watched
    ensures watches { Watches chart.now log.now result }
    ensures unchanged { (chart.exit.now ≡ chart.entry.now) × (log.exit.now ≡ log.entry.now) }
{
    let read = chart_reader::read(chart);
    let c = read.chart;
    let made = monitor::new(c);
    let fresh = made.monitor;
    let answer = read.answer;
    match answer {
        Ok(()) => {
            let monitor = feed_all(c, log, fresh);
            Watched { answer, monitor }
        }
        Err(fault) => Watched {
            answer: Err(fault),
            monitor: fresh,
        },
    }
}

// Carries the claims.
pub fn claims()
    ensures { Claims }
{}
