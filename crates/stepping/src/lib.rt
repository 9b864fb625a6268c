// One record taken by a fit monitor, over a compiled chart.
#![tactic(auto)]

ghost use Rattle.std.specs.Prelude.{◌≡◌, ◌≢◌, ◌&&◌, not, cond, ℕ, ◌<◌, ◌≤◌, ◌+◌, ◌*◌};
ghost use Rattle.std.proofs.Math.Bool.{So};
ghost use Rattle.std.proofs.Math.Option.{none};
ghost use Rattle.bitset.specs.Set.{contains};
ghost use Rattle.model.specs.Answers.{most_records};
ghost use Rattle.rounds.specs.Chart.{Chart};
ghost use Rattle.rounds.specs.Rows.{chart_message};
ghost use Rattle.rounds.specs.Feeds.{entered, moved};
ghost use Rattle.rounds.specs.Tally.{counted_as, counted as tallied, counted_kept, counted_dropped, counted_broken};
ghost use Rattle.rounds.specs.Machine.{stuck, ready_for, go_on, keep_round, drop_round, break_round, conclude as concluded};
ghost use Rattle.rounds.specs.Machine.{reopened as reopens, accept as accepted, feed as fed, Fit};
ghost use Rattle.layout.specs.View.{Covers};
ghost use Rattle.layout.specs.Plans.{chart_of_plan};
ghost use Rattle.firing.specs.Places.{place_at};
ghost use Rattle.firing.specs.Parts.{move_of};
ghost use Rattle.stepping.specs.Answers.{answer_of, HandsBack};
ghost use Rattle.stepping.specs.Monitors.{break_at, tally_at, monitor_at, answered_of, step_of, record_of};
ghost use Rattle.stepping.specs.Parts.{Offerable, Decides};

use firing::{Settled, Sought};
use layout::Plan;
use model::{Answer, Break, Cause, FeedRefusal, MOST_RECORDS, Moment, Monitor, Place, Tally};

// The reasons of a break.
pub const NO_READY_REGION: u8 = 1;

pub const CONDITION_FAILS: u8 = 2;

// What a record that is taken gives: the answer, and the monitor after it.
#[derive(Clone, Copy)]
pub struct Answered {
    pub answer: Answer,
    pub next: Monitor,
}

// What a feed gives. A refusal gives the monitor as it came, so the monitor stands beside the answer and not in it.
#[derive(Clone, Copy)]
pub struct Step {
    pub answer: Result<Answer, FeedRefusal>,
    pub next: Monitor,
}

// A record at moment t is counted, with these counts of rounds and this break.
fn counted_as(x: Tally, t: Moment, kept: u32, dropped: u32, broken: Break) -> Tally
    requires { x.records < most_records }
    ensures { tally_at result ≡ counted_as (tally_at x) t.0 kept dropped (break_at broken) }
{
    Tally {
        now: t,
        records: x.records + 1,
        kept,
        dropped,
        broken,
    }
}

// A record is counted, and the round runs on. This and the next three are no methods, as `Tally` is of crate `model`,
// and stay apart, as each is a definition of the theory.
fn counted(x: Tally, t: Moment) -> Tally
    requires { x.records < most_records }
    ensures { tally_at result ≡ tallied (tally_at x) t.0 }
{
    counted_as(x, t, x.kept, x.dropped, model::no_break())
}

// A record is counted, and the round is kept.
fn counted_kept(x: Tally, t: Moment) -> Tally
    requires { (x.records < most_records) × (x.kept ≤ 2 * x.records + 1) }
    ensures { tally_at result ≡ counted_kept (tally_at x) t.0 }
{
    counted_as(x, t, x.kept + 1, x.dropped, model::no_break())
}

// A record is counted, and the round is dropped.
fn counted_dropped(x: Tally, t: Moment) -> Tally
    requires { (x.records < most_records) × (x.dropped ≤ 2 * x.records + 1) }
    ensures { tally_at result ≡ counted_dropped (tally_at x) t.0 }
{
    counted_as(x, t, x.kept, x.dropped + 1, model::no_break())
}

// A record is counted, and the round is broken at it.
fn counted_broken(x: Tally, t: Moment, reason: u8, cause: Cause) -> Tally
    requires { x.records < most_records }
    ensures { tally_at result ≡ counted_broken (tally_at x) t.0 reason cause }
{
    let broken = Break {
        at: x.records + 1,
        reason,
        cause,
    };
    counted_as(x, t, x.kept, x.dropped, broken)
}

// The round runs on at a place.
fn go_on(m: Monitor, t: Moment, answer: Answer, place: Place) -> Answered
    requires { m.tally.records < most_records }
    ensures { (C : Chart) (code : ℕ) → answered_of result
        ≡ go_on C (monitor_at m) (record_of code t.0) (answer_of answer) (place_at place) }
{
    let tally = counted(m.tally, t);
    Answered {
        answer,
        next: Monitor { place, tally },
    }
}

// The round is kept. This and the next two stay apart, as each is a definition of the theory.
fn keep_round(plan: &Plan, m: Monitor, t: Moment) -> Answered
    requires { (m.tally.records < most_records) × (m.tally.kept ≤ 2 * m.tally.records + 1) }
    ensures { (code : ℕ) → answered_of result ≡ keep_round (chart_of_plan plan.now) (monitor_at m) (record_of code t.0) }
{
    let place = firing::opening(plan.head.clocks, t);
    let tally = counted_kept(m.tally, t);
    Answered {
        answer: Answer::Kept,
        next: Monitor { place, tally },
    }
}

// The round is dropped; the cause is in the answer alone (T32).
fn drop_round(plan: &Plan, m: Monitor, t: Moment, cause: Cause) -> Answered
    requires { (m.tally.records < most_records) × (m.tally.dropped ≤ 2 * m.tally.records + 1) }
    ensures { (code : ℕ)
        → answered_of result ≡ drop_round (chart_of_plan plan.now) (monitor_at m) (record_of code t.0) cause }
{
    let place = firing::opening(plan.head.clocks, t);
    let tally = counted_dropped(m.tally, t);
    Answered {
        answer: Answer::Dropped(cause),
        next: Monitor { place, tally },
    }
}

// The round is broken, with this place (T24, T25).
fn break_round(m: Monitor, t: Moment, reason: u8, cause: Cause, place: Place) -> Answered
    requires { m.tally.records < most_records }
    ensures { (C : Chart) (code : ℕ) → answered_of result
        ≡ break_round C (monitor_at m) (record_of code t.0) reason cause (place_at place) }
{
    let tally = counted_broken(m.tally, t, reason, cause);
    Answered {
        answer: Answer::Broken(tally.broken.at, reason, cause),
        next: Monitor { place, tally },
    }
}

// T28, T29: the answer if the round runs on, by whether the prechart was complete before the record, and is after it.
fn entered_or_moved(before: bool, after: bool) -> Answer
    ensures { answer_of result ≡ cond (not before && after) entered moved }
{
    if !before & after {
        Answer::Entered
    } else {
        Answer::Moved
    }
}

// T18 and T19: no ready region has the chart message.
fn unplaced(plan: &Plan, m: Monitor, t: Moment) -> Answered
    requires { (m.tally.records < most_records) × (m.tally.kept + m.tally.dropped ≤ 2 * m.tally.records + 1) }
    ensures { (code : ℕ)
        → answered_of result ≡ concluded (chart_of_plan plan.now) (monitor_at m) (record_of code t.0) stuck }
{
    if firing::all_fired(plan.head.prechart, m.place.fired) {
        return break_round(m, t, NO_READY_REGION, model::no_cause(), m.place);
    }
    drop_round(plan, m, t, model::no_cause())
}

// T17, T21, T28, T29: what follows from the end of steps 3 and 4.
fn conclude(plan: &Plan, m: Monitor, t: Moment, s: Settled) -> Answered
    requires { (m.tally.records < most_records) × (m.tally.kept + m.tally.dropped ≤ 2 * m.tally.records + 1) }
    ensures { (code : ℕ)
        → answered_of result ≡ concluded (chart_of_plan plan.now) (monitor_at m) (record_of code t.0) (move_of s) }
{
    let place = s.place;
    if let Some(failure) = s.failure {
        let cause = model::cause_of(failure.region, failure.term);
        if bitset::member(plan.head.hot, failure.region as u32) {
            return break_round(m, t, CONDITION_FAILS, cause, place);
        }
        return drop_round(plan, m, t, cause);
    }
    if firing::all_fired(plan.head.count, place.fired) {
        return keep_round(plan, m, t);
    }
    let before = firing::all_fired(plan.head.prechart, m.place.fired);
    let after = firing::all_fired(plan.head.prechart, place.fired);
    go_on(m, t, entered_or_moved(before, after), place)
}

// T34: the monitor between two offers of a record: at the opening, with one more drop.
fn reopened(plan: &Plan, m: Monitor, t: Moment) -> Monitor
    requires { (m.tally.records < most_records) × (m.tally.dropped ≤ 2 * m.tally.records) }
    ensures { (code : ℕ)
        → monitor_at result ≡ reopens (chart_of_plan plan.now) (monitor_at m) (record_of code t.0) }
{
    let x = m.tally;
    let tally = Tally {
        now: t,
        records: x.records,
        kept: x.kept,
        dropped: x.dropped + 1,
        broken: x.broken,
    };
    let place = firing::opening(plan.head.clocks, t);
    Monitor { place, tally }
}

// An offer of a record: which regions have its message, and the monitor to which it is offered.
#[derive(Clone, Copy)]
pub struct Offer {
    pub sought: Sought,
    pub monitor: Monitor,
}

// T33: the offer that decides if no ready region has the chart message: the second one, or the first. With nothing
// fired, none has it at the opening either.
fn offer_again(plan: &Plan, among: u32, m: Monitor, code: u64, t: Moment) -> Offer
    requires offerable { Offerable m t.0 }
    requires covers { Covers plan.now.head.count plan.now.keys code among }
    ensures { So (chart_message (chart_of_plan plan.now) (record_of code t.0))
        → ready_for (chart_of_plan plan.now) (contains m.place.fired) (record_of code t.0) ≡ none
        → Decides (chart_of_plan plan.now) m (record_of code t.0) result }
{
    if firing::all_fired(plan.head.prechart, m.place.fired) | (m.place.fired == 0) {
        return Offer {
            sought: Sought::Unready,
            monitor: m,
        };
    }
    let Some(i) = firing::ready_for(&plan.keys, &plan.above, among, 0, code) else {
        return Offer {
            sought: Sought::Unready,
            monitor: m,
        };
    };
    Offer {
        sought: Sought::Ready(i),
        monitor: reopened(plan, m, t),
    }
}

// The offer that decides what a message does. The steps after it have one caller, so that the compiler takes them in.
fn deciding_offer(plan: &Plan, among: u32, m: Monitor, code: u64, t: Moment) -> Offer
    requires offerable { Offerable m t.0 }
    requires covers { Covers plan.now.head.count plan.now.keys code among }
    requires code_nonzero { code ≢ 0 }
    ensures { Decides (chart_of_plan plan.now) m (record_of code t.0) result }
{
    let sought = firing::seek(plan, among, m.place.fired, code);
    match sought {
        Sought::Unready => offer_again(plan, among, m, code, t),
        Sought::Ready(_) | Sought::Foreign => Offer { sought, monitor: m },
    }
}

// A record that is neither refused nor after a break; code 0 is a record of time. Every region that has its message is
// in `among`. Code and moment come apart, and in no struct: the functions below it take the one or the other.
pub fn accept(plan: &Plan, among: u32, m: Monitor, code: u64, t: Moment) -> Answered
    requires offerable { Offerable m t.0 }
    requires covers { Covers plan.now.head.count plan.now.keys code among }
    ensures { answered_of result ≡ accepted (chart_of_plan plan.now) (monitor_at m) (record_of code t.0) }
{
    if code == 0 {
        return go_on(m, t, Answer::Quiet, m.place);
    }
    let offer = deciding_offer(plan, among, m, code, t);
    let n = offer.monitor;
    match offer.sought {
        Sought::Foreign => go_on(n, t, Answer::Quiet, n.place),
        Sought::Unready => unplaced(plan, n, t),
        Sought::Ready(i) => {
            let s = firing::take_region(plan, n.place, i, t);
            conclude(plan, n, t, s)
        }
    }
}

// Feeding a record to a fit monitor; code 0 is a record of time.
pub fn feed_fit(plan: &Plan, among: u32, m: Monitor, code: u64, t: Moment) -> Step
    requires fit { Fit (chart_of_plan plan.now) (monitor_at m) }
    requires covers { Covers plan.now.head.count plan.now.keys code among }
    ensures step { step_of result ≡ fed (chart_of_plan plan.now) (monitor_at m) (record_of code t.0) }
    ensures back { HandsBack m result }
{
    let broken = m.tally.broken;
    if broken.at != 0 {
        return Step {
            answer: Ok(Answer::Broken(broken.at, broken.reason, broken.cause)),
            next: m,
        };
    }
    if t.0 < m.tally.now.0 {
        return Step {
            answer: Err(FeedRefusal::TimeFalls),
            next: m,
        };
    }
    if MOST_RECORDS <= m.tally.records {
        return Step {
            answer: Err(FeedRefusal::TooManyRecords),
            next: m,
        };
    }
    let taken = accept(plan, among, m, code, t);
    Step {
        answer: Ok(taken.answer),
        next: taken.next,
    }
}
