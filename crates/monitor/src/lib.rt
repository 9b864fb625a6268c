// Making a monitor and feeding it records.
#![tactic(auto)]

ghost use Rattle.std.specs.Prelude.{◌≡◌, true, not, ◌||◌, ◌↔◌, List, ℕ, ◌≤◌, length, get_or};
ghost use Rattle.bitset.specs.Set.{contains, is_subset};
ghost use Rattle.model.specs.Chart.{most_regions, most_clocks};
ghost use Rattle.base.specs.Lists.{all_below};
ghost use Rattle.rounds.specs.Machine.{Fit};
ghost use Rattle.stepping.specs.Monitors.{monitor_at, step_of};
ghost use Rattle.layout.specs.View.{plan_chart, Compiled};
ghost use Rattle.layout.specs.Plans.{chart_of_plan};
ghost use Rattle.stepping.specs.Answers.{HandsBack};
ghost use Rattle.monitor.specs.Fit.{moments_fit, cause_fits, break_fits, counts_fit, place_fits};
ghost use Rattle.monitor.specs.Fit.{fits};
ghost use Rattle.monitor.specs.Feed.{MadeOf, refuse, feed_of};
ghost use Rattle.monitor.specs.Stored.{Stored};

use chart_value::{AcceptedChart, NotAChart};
use layout::{Head, Plan};
use model::{
    Break, CLOCK_PLACES, Cause, Chart, FeedRefusal, MOST_RECORDS, MOST_REGIONS, MOST_TERMS, Moment,
    Monitor, Place, Record, Tally,
};
use stepping::{CONDITION_FAILS, NO_READY_REGION, Step};

// Making gives a monitor of zeros in every case, so the monitor stands beside the answer and not in it.
#[derive(Clone, Copy)]
pub struct Made {
    pub answer: Result<(), NotAChart>,
    pub monitor: Monitor,
}

// Each region above a fired one is fired.
fn closed_upward(above: &[u32; MOST_REGIONS], count: usize, fired: u32) -> bool
    requires { count ≤ most_regions }
    ensures { result
        ≡ all_below count (λ i. not (contains fired i) || is_subset (get_or above.now i 0) fired) }
{
    (0..count).all(|i| !bitset::member(fired, i as u32) | bitset::subset(above[i], fired))
}

// No reset moment is above now, and that of a clock that the chart has not is 0.
fn moments_fit(clocks: usize, resets: [Moment; CLOCK_PLACES], now: Moment) -> bool
    ensures test { result ≡ moments_fit clocks resets now.0 }
    ensures places { length resets ≡ most_clocks }
{
    resets
        .iter()
        .enumerate()
        .all(|(k, t)| (t.0 <= now.0) & ((k < clocks) | (t.0 == 0)))
}

// Records is not above 1,000,000, and the sum of kept and dropped is not above twice records; both in 64 bits.
fn counts_fit(x: Tally) -> bool
    ensures { result ≡ counts_fit x }
{
    (x.records <= MOST_RECORDS)
        & (u64::from(x.kept) + u64::from(x.dropped) <= 2 * u64::from(x.records))
}

// Whether the cause is a region of the chart with one of its terms: the term then has a word, which is not 0.
fn cause_fits(plan: &Plan, x: Cause) -> bool
    ensures { result ≡ cause_fits (chart_of_plan plan.now) x }
{
    let region = usize::from(x.region);
    let term = usize::from(x.term);
    if region == 0 || plan.head.count < region || term == 0 || MOST_TERMS < term {
        return false;
    }
    plan.terms[(region - 1) * MOST_TERMS + (term - 1)] != 0
}

// There is no break; or the break is 1 to records, with reason 1 and no cause, or reason 2 and a cause.
fn break_fits(plan: &Plan, records: u32, b: Break) -> bool
    ensures { result ≡ break_fits (chart_of_plan plan.now) records b }
{
    let cause = b.cause;
    let none = cause == model::no_cause();
    let whole = b == model::no_break();
    let failed = (b.reason == CONDITION_FAILS) & cause_fits(plan, cause);
    let known = ((b.reason == NO_READY_REGION) & none) | failed;
    whole | ((1 <= b.at) & ((b.at <= records) & known))
}

// Whether a place fits the compiled chart at moment t. `broken` is the record of the break, or 0; after a break a plain
// region may be ready.
pub fn place_fits(h: Head, above: &[u32; MOST_REGIONS], p: Place, t: Moment, broken: u32) -> bool
    requires { h.count ≤ most_regions }
    ensures test { (keys resets terms : List ℕ) → Compiled h keys above.now resets terms
        → result ≡ place_fits (plan_chart h keys above.now resets terms) p t.0 broken }
    ensures places { length p.resets ≡ most_clocks }
{
    let fired = p.fired;
    let count = h.count;
    let rests = firing::ready_plain(h.plain, above, fired).is_none();
    let settled = (broken != 0) | rests;
    let set = bitset::within(count as u32, fired)
        & (!firing::all_fired(count, fired) & (settled & moments_fit(h.clocks, p.resets, t)));
    closed_upward(above, count, fired) & set
}

// Whether the monitor is fit for the compiled chart: its place and its tally.
pub fn is_fit(plan: &Plan, m: Monitor) -> bool
    ensures test { result ≡ fits (chart_of_plan plan.now) m }
    ensures list { (result ≡ true) ↔ Fit (chart_of_plan plan.now) (monitor_at m) }
{
    let tally = m.tally;
    let placed = place_fits(plan.head, &plan.above, m.place, tally.now, tally.broken.at);
    let broken = break_fits(plan, tally.records, tally.broken);
    placed & (counts_fit(tally) & broken)
}

// M8: makes a monitor, which is zeros in every case; the answer says whether the value is a chart.
pub fn new(chart: Chart) -> Made
    ensures { MadeOf chart result }
{
    let monitor = model::zero_monitor();
    let answer = if chart_value::well_formed(chart) {
        Ok(())
    } else {
        Err(NotAChart)
    };
    Made { answer, monitor }
}

fn refused(k: FeedRefusal, m: Monitor) -> Step
    ensures step { step_of result ≡ refuse k m }
    ensures back { HandsBack m result }
{
    Step {
        answer: Err(k),
        next: m,
    }
}

// M12 to M14 for an accepted chart: one record is refused, or taken; with the monitor after it.
pub fn feed_accepted(accepted: &AcceptedChart, monitor: Monitor, e: Record) -> Step
    ensures { (step_of result ≡ feed_of accepted.now.chart monitor e) × HandsBack monitor result × Stored result.next }
{
    let plan = plan::compile(accepted);
    if !is_fit(&plan, monitor) {
        return refused(FeedRefusal::Unfit, monitor);
    }
    let every = firing::below(plan.head.count);
    stepping::feed_fit(
        &plan,
        every,
        monitor,
        plan::record_code(e),
        model::time_of(e),
    )
}

// M12 to M14 for any chart value.
pub fn feed(chart: Chart, monitor: Monitor, e: Record) -> Step
    ensures { (step_of result ≡ feed_of chart monitor e) × HandsBack monitor result × Stored result.next }
{
    let Ok(accepted) = AcceptedChart::try_from(chart) else {
        return refused(FeedRefusal::NotAChart, monitor);
    };
    feed_accepted(&accepted, monitor, e)
}
