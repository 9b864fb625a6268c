// Whether a log breaks a chart: yes or no, and no more.
#![tactic(auto)]

ghost use Rattle.std.specs.Prelude.{◌≡◌};
ghost use Rattle.breaks.specs.Breaks.{breaks_of};

use chart_value::AcceptedChart;
use log_check::JudgeRefusal;
use model::Chart;

// K1 to K4: reading stops at the first break with yes. Without one, the record at which the pass stopped is the first
// fault, or the log is over.
pub fn breaks(chart: Chart, log: &[u8]) -> Result<bool, JudgeRefusal>
    ensures answer { result ≡ breaks_of chart log.now }
    ensures unchanged { log.exit.now ≡ log.entry.now }
{
    let Ok(accepted) = AcceptedChart::try_from(chart) else {
        return Err(JudgeRefusal::NotAChart);
    };
    let passed = log_pass::pass(&accepted, log);
    let m = passed.monitor;
    if m.tally.broken.at != 0 {
        return Ok(true);
    }
    log_check::check_rest(log, passed.at, m.tally.now, m.tally.records)?;
    Ok(false)
}
