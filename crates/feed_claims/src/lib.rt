// What is claimed of monitors, each in the contract of a function that calls one operation.
#![tactic(auto)]

ghost use Rattle.base.specs.Just.{Just};
ghost use Rattle.stepping.specs.Answers.{fed_answer};
ghost use Rattle.feed_claims.specs.Feeds.{MakesAs, FeedsJust};

use model::{Chart, Monitor, Record};
use monitor::Made;
use stepping::Step;

// Making a monitor: every chart value.
pub fn make_monitor(chart: Chart) -> Made
    ensures { Just (MakesAs chart) result }
{
    monitor::new(chart)
}

// Feeding a record: every chart value, monitor and record.
pub fn feed_record(chart: Chart, m: Monitor, e: Record) -> Step
    ensures { FeedsJust chart m e (fed_answer result.answer) result.next }
{
    monitor::feed(chart, m, e)
}
