// One pass over a log: each record is checked, then taken.
#![tactic(auto)]

ghost use Rattle.std.specs.Prelude.{◌≡◌};
ghost use Rattle.rounds.specs.Machine.{after};
ghost use Rattle.chart_value.specs.View.{chart_of};
ghost use Rattle.chart_value.specs.Records.{logged};
ghost use Rattle.stepping.specs.Monitors.{monitor_at};
ghost use Rattle.log_check.specs.Check.{check_log};
ghost use Rattle.log_check.specs.Sound.{sound_records};
ghost use Rattle.log_pass.specs.Pass.{rest_of};

use chart_value::AcceptedChart;
use model::Monitor;

// The monitor after the records that were taken, and the offset just after them.
#[derive(Clone, Copy)]
pub struct Passed {
    pub monitor: Monitor,
    pub at: usize,
}

// The chart is compiled once, and each record is taken where it lies, from a fresh monitor on. It stops before the
// first fault, after a break, after which nothing changes any more, and at the end; the check of the whole log goes on
// from there.
pub fn pass(accepted: &AcceptedChart, log: &[u8]) -> Passed
    ensures end { monitor_at result.monitor ≡ after (chart_of accepted.now.chart) (logged (sound_records log.now)) }
    ensures rest { rest_of log.now result ≡ check_log log.now }
    ensures unchanged { log.exit.now ≡ log.entry.now }
{
    let plan = plan::compile(accepted);
    let slots = plan::slots_of(&plan);
    let pace = log_check::pace_of(log_reader::read_record(log, 0));
    let mut m = model::zero_monitor();
    let mut at: usize = 0;
    // A loop by hand: it moves by each record's length.
    while at < log.len() {
        let Some(met) = log_check::met_at(log, at, pace, m.tally.now, m.tally.records) else {
            return Passed { monitor: m, at };
        };
        let among = slots[plan::slot_of(met.code)];
        let s = stepping::accept(&plan, among, m, met.code, met.time);
        m = s.next;
        at = met.past;
        if m.tally.broken.at != 0 {
            return Passed { monitor: m, at };
        }
    }
    Passed { monitor: m, at }
}
