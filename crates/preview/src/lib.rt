// What each region's message would be answered, if it were fed at a moment: shown before anything is fed.
#![tactic(auto)]

ghost use Rattle.std.specs.Prelude.{◌≡◌, ◌≤◌, length, get_or};
ghost use Rattle.base.specs.Table.{table};
ghost use Rattle.wire.specs.Writing.{starting_with};
ghost use Rattle.rounds.specs.Machine.{Fit};
ghost use Rattle.stepping.specs.Monitors.{monitor_at};
ghost use Rattle.layout.specs.View.{Covers};
ghost use Rattle.layout.specs.Plans.{chart_of_plan};
ghost use Rattle.preview.specs.Preview.{preview_number, timely, preview_of, buffer_of};
ghost use Rattle.preview.specs.Parts.{shown_by};

use chart_value::AcceptedChart;
use layout::Plan;
use model::{Chart, FeedRefusal, MOST_RECORDS, Moment, Monitor, TOO_SHORT, Tally};

// Why nothing is shown: the buffer is too short, or feeding would be refused.
#[derive(Clone, Copy, Debug, PartialEq, Eq)]
pub enum PreviewRefusal {
    TooShort,
    Feed(FeedRefusal),
}

impl From<FeedRefusal> for PreviewRefusal {
    ghost use Rattle.preview.specs.declared.PreviewRefusal.TheVariants.{Feed};

    ghost from_gives = { λ why refusal. refusal ≡ Feed why };

    fn from(why: FeedRefusal) -> PreviewRefusal {
        PreviewRefusal::Feed(why)
    }
}

// 12, or the number of the refusal to feed.
impl From<PreviewRefusal> for u8 {
    ghost use Rattle.preview.specs.Preview.{refusal_number};

    ghost from_gives = { λ refusal n. n ≡ refusal_number refusal };

    fn from(refusal: PreviewRefusal) -> u8 {
        match refusal {
            PreviewRefusal::TooShort => TOO_SHORT,
            PreviewRefusal::Feed(k) => u8::from(k),
        }
    }
}

// 0, or the number of the refusal. A function and no From, since Result and u8 are both the library's.
pub fn number(shown: Result<(), PreviewRefusal>) -> u8
    ensures { result ≡ preview_number shown }
{
    match shown {
        Ok(()) => 0,
        Err(refusal) => u8::from(refusal),
    }
}

// The byte of a region, by its key: 0 is a plain region's.
fn foreseen(plan: &Plan, among: u32, m: Monitor, code: u64, t: Moment) -> u8
    requires fit { Fit (chart_of_plan plan.now) (monitor_at m) }
    requires covers { Covers plan.now.head.count plan.now.keys code among }
    ensures { result ≡ shown_by (chart_of_plan plan.now) m t code }
{
    if code == 0 {
        return 0;
    }
    model::fed_number(stepping::feed_fit(plan, among, m, code, t).answer)
}

// The byte of each region, put at the start of the buffer.
fn put_foreseen(plan: &Plan, m: Monitor, t: Moment, out: &mut [u8])
    requires fit { Fit (chart_of_plan plan.now) (monitor_at m) }
    requires count_in_bounds { plan.now.head.count ≤ length out.old }
    ensures { out.new
        ≡ starting_with (table plan.now.head.count (λ i. shown_by (chart_of_plan plan.now) m t
        (get_or plan.now.keys i 0))) out.old }
{
    let every = firing::below(plan.head.count);
    for i in 0..plan.head.count {
        out[i] = foreseen(plan, every, m, plan.keys[i], t);
    }
}

// Whether a fit monitor takes a record of this moment; a broken one answers at every moment.
fn timely_answer(x: Tally, t: Moment) -> Result<(), FeedRefusal>
    ensures { result ≡ timely x t }
{
    if x.broken.at != 0 {
        return Ok(());
    }
    if t.0 < x.now.0 {
        return Err(FeedRefusal::TimeFalls);
    }
    if MOST_RECORDS <= x.records {
        return Err(FeedRefusal::TooManyRecords);
    }
    Ok(())
}

// F1 to F4: the chart is compiled once, and each region's message is fed to the monitor as it stands.
pub fn preview(chart: Chart, m: Monitor, t: Moment, out: &mut [u8]) -> Result<(), PreviewRefusal>
    ensures answer { result ≡ preview_of chart m t (length out.old) }
    ensures buffer { out.new ≡ buffer_of chart m t out.old }
{
    let Ok(accepted) = AcceptedChart::try_from(chart) else {
        return Err(PreviewRefusal::Feed(FeedRefusal::NotAChart));
    };
    let plan = plan::compile(&accepted);
    if !monitor::is_fit(&plan, m) {
        return Err(PreviewRefusal::Feed(FeedRefusal::Unfit));
    }
    if out.len() < plan.head.count {
        return Err(PreviewRefusal::TooShort);
    }
    timely_answer(m.tally, t)?;
    put_foreseen(&plan, m, t, out);
    Ok(())
}
