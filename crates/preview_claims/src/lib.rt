// What is claimed of showing what would be answered, in the contracts of functions that call it.
#![tactic(auto)]

ghost use Rattle.preview_claims.specs.Previews.{PreviewsJust, Foretold};

use model::{Chart, Message, Moment, Monitor, Record};
use preview::PreviewRefusal;
use stepping::Step;

// Showing what would be answered: every chart value, monitor, moment and buffer.
pub fn preview_regions(
    chart: Chart,
    m: Monitor,
    t: Moment,
    out: &mut [u8],
) -> Result<(), PreviewRefusal>
    ensures { PreviewsJust chart m t out.old result out.new }
{
    preview::preview(chart, m, t, out)
}

// What showing answers, and what feeding then gives.
#[derive(Clone, Copy)]
pub struct Pressed {
    pub shown: Result<(), PreviewRefusal>,
    pub fed: Step,
}

// Shows what would be answered, then feeds a message at the same moment: every chart value, monitor, moment, message
// and buffer.
pub fn show_then_feed(chart: Chart, m: Monitor, t: Moment, x: Message, out: &mut [u8]) -> Pressed
    ensures { Foretold chart x out.new result }
{
    let shown = preview::preview(chart, m, t, out);
    let fed = monitor::feed(chart, m, Record::Message(x, t));
    Pressed { shown, fed }
}
