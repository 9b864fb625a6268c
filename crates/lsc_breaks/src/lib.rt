// V19: the exported function that asks whether a log breaks a chart. 0 is success, 12 a buffer with too few places. In
// an archive of its own the loop over the records is the only caller of the step, which the compiler then takes in.
#![tactic(auto)]

ghost use Rattle.std.specs.Prelude.{◌≡◌, ◌≤◌, length};
ghost use Rattle.wire.specs.Writing.{starting_with};
ghost use Rattle.breaks.specs.Numbers.{break_number};
ghost use Rattle.lsc_breaks.specs.Breaks.{breaks_places, refusal_numbers, answer_numbers};
ghost use Rattle.lsc_breaks.specs.Breaks.{breaks_number, breaks_out};

use log_check::JudgeRefusal;
use model::TOO_SHORT;

// How many places of a buffer the answer takes.
const BREAKS_PLACES: usize = 3;

// The part that a refusal speaks of.
const CHART_PART: u64 = 1;

const LOG_PART: u64 = 2;

// Puts a refusal's part, number and offset, and gives its number to return.
fn put_refusal(out: &mut [u64], part: u64, number: u8, offset: usize) -> u8
    requires { breaks_places ≤ length out.old }
    ensures number { result ≡ number }
    ensures numbers { out.new ≡ starting_with (refusal_numbers part number offset) out.old }
{
    wire::put_numbers(out, [part, u64::from(number), offset as u64]);
    number
}

// Puts the numbers of an answer, and gives the number to return.
fn put_answer(out: &mut [u64], answer: Result<bool, JudgeRefusal>) -> u8
    requires { breaks_places ≤ length out.old }
    ensures number { result ≡ break_number answer }
    ensures numbers { out.new ≡ starting_with (answer_numbers answer) out.old }
{
    match answer {
        Ok(yes) => {
            wire::put_numbers(out, [u64::from(yes), 0, 0]);
            0
        }
        Err(refusal) => put_refusal(out, LOG_PART, u8::from(refusal), refusal.offset()),
    }
}

// K1 to K4: asks whether a log breaks a chart.
#[unsafe(no_mangle)]
pub extern "C" fn lsc_breaks(chart: &[u8], log: &[u8], out: &mut [u64]) -> u8
    ensures number { result ≡ breaks_number chart.now log.now out.old }
    ensures numbers { out.new ≡ breaks_out chart.now log.now out.old }
    ensures unchanged { (chart.exit.now ≡ chart.entry.now) × (log.exit.now ≡ log.entry.now) }
{
    if out.len() < BREAKS_PLACES {
        return TOO_SHORT;
    }
    let read = chart_reader::read(chart);
    match read.answer {
        Err(fault) => put_refusal(out, CHART_PART, u8::from(fault.refusal), fault.offset),
        Ok(()) => put_answer(out, breaks::breaks(read.chart, log)),
    }
}
