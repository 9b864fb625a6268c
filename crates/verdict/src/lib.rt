// The standing and the verdict of a monitor for a chart.
#![tactic(auto)]

ghost use Rattle.std.specs.Prelude.{◌≡◌};
ghost use Rattle.verdict.specs.Parts.{standing_by, verdict_by};

use chart_value::AcceptedChart;
use model::{Monitor, Verdict};

const BROKEN: u8 = 3;

const NOTHING_FIRED: u8 = 0;

const IN_PRECHART: u8 = 1;

const OWED: u8 = 2;

const RESTING: u8 = 4;

fn standing(accepted: &AcceptedChart, m: Monitor) -> u8
    ensures { result ≡ standing_by accepted.now.chart m }
{
    let chart = &accepted.chart;
    let place = m.place;
    if m.tally.broken.at != 0 {
        return BROKEN;
    }
    if place.fired == 0 {
        return NOTHING_FIRED;
    }
    if !firing::all_fired(chart.prechart as usize, place.fired) {
        return IN_PRECHART;
    }
    if resting::rests(*chart, place.fired) {
        return RESTING;
    }
    OWED
}

// The verdict of a monitor for a chart.
pub fn verdict_of(accepted: &AcceptedChart, m: Monitor) -> Verdict
    ensures { result ≡ verdict_by accepted.now.chart m }
{
    let tally = m.tally;
    let broken = tally.broken;
    let cause = broken.cause;
    Verdict {
        standing: standing(accepted, m),
        kept: tally.kept,
        dropped: tally.dropped,
        records: tally.records,
        broken: broken.at,
        reason: broken.reason,
        region: cause.region,
        term: cause.term,
    }
}
