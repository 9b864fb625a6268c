// A chart value that some accepted bytes are read as, and its refusal.

ghost use Rattle.std.specs.Prelude.{◌≡◌, true, false, MatchResult};
ghost use Rattle.chart_value.specs.WellFormed.{well_formed};

use model::Chart;
use std::error::Error;
use std::fmt;

// A chart that accepted bytes give (M4).
#[derive(Clone, Copy, Debug, PartialEq, Eq)]
pub struct AcceptedChart {
    pub chart: Chart,
    pub ghost accepted: { well_formed chart ≡ true },
}

// No accepted bytes give the chart value: refusal 20.
#[derive(Clone, Copy, Debug, PartialEq, Eq)]
pub struct NotAChart;

impl TryFrom<Chart> for AcceptedChart {
    type Error = NotAChart;

    ghost try_from_gives = { λ c r. MatchResult r (λ a. a.chart ≡ c) (λ _. well_formed c ≡ false) };

    fn try_from(chart: Chart) -> Result<AcceptedChart, NotAChart> {
        if crate::well_formed(chart) {
            Ok(AcceptedChart { chart })
        } else {
            Err(NotAChart)
        }
    }
}

impl fmt::Display for NotAChart {
    fn fmt<W: fmt::Write>(&self, f: &mut fmt::Formatter<W>) -> fmt::Result {
        f.write_str("no accepted bytes give this chart value")
    }
}

impl Error for NotAChart {}
