// Reading a whole chart: command after command, at most one for each byte.
#![tactic(auto)]

ghost use Rattle.std.specs.Prelude.{◌≡◌, ℕ, ◌<◌, length};
ghost use Rattle.chart_reader.specs.Read.{start_reading, advance_of, read_from};
ghost use Rattle.chart_reader.specs.Said.{accepted_as, refused_for, said};
ghost use Rattle.chart_reader.specs.Read.{read_chart};

use chart_command::Decoded;
use chart_step::{Fault, Reading, Refusal, Step};
use model::Chart;

// Whether the bytes give a chart, and the chart. It stands beside the answer, since a refusal gives one too (R3): zeros.
#[derive(Clone, Copy)]
pub struct ChartRead {
    pub answer: Result<(), Fault>,
    pub chart: Chart,
}

fn start() -> Reading
    ensures { result ≡ start_reading }
{
    let region = model::zero_region();
    let chart = model::zero_chart();
    Reading {
        headed: false,
        main: false,
        started: false,
        start: 0,
        touched: 0,
        region,
        chart,
    }
}

fn refused(fault: Fault) -> ChartRead
    ensures { said result ≡ refused_for fault.refusal fault.offset }
{
    ChartRead {
        answer: Err(fault),
        chart: model::zero_chart(),
    }
}

fn accepted(r: &Reading) -> ChartRead
    ensures { said result ≡ accepted_as r.now.chart }
{
    ChartRead {
        answer: Ok(()),
        chart: r.chart,
    }
}

// One command at an offset.
#[tactic(auto, unfolding(crate::specs::Read::advance_of))]
fn advance(s: &[u8], at: usize, r: &Reading) -> Result<Step, Fault>
    ensures { result ≡ advance_of s.now at r.now }
{
    let Decoded { command, next } = chart_command::decode(s, at).map_err(|undecoded| Fault {
        refusal: Refusal::from(undecoded),
        offset: at,
    })?;
    chart_step::take(r, at, next, next < s.len(), command)
}

// The chart that the bytes give, or the first fault. A larger bound on the commands would give the same.
pub fn read(bytes: &[u8]) -> ChartRead
    ensures answer { said result ≡ read_chart bytes.now }
    ensures count { (n : ℕ) → length bytes.now < n
        → said result ≡ read_from n bytes.now 0 start_reading }
    ensures unchanged { bytes.exit.now ≡ bytes.entry.now }
{
    let mut r = start();
    let mut at: usize = 0;
    for _ in 0..bytes.len() + 1 {
        match advance(bytes, at, &r) {
            Ok(step) => match step.next {
                Some(next) => {
                    r = step.reading;
                    at = next;
                }
                None => return accepted(&step.reading),
            },
            Err(fault) => return refused(fault),
        }
    }
    refused(Fault {
        refusal: Refusal::CutShort,
        offset: bytes.len(),
    })
}
