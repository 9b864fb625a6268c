// From the printing program's whole input to its text.
#![tactic(auto)]

ghost use Rattle.std.specs.Prelude.{◌≡◌, ◌≤◌, length, IfOk, IfErr};
ghost use Rattle.judge.specs.Said.{said};
ghost use Rattle.respond.specs.Respond.{log_report, parts_report, report_of, text_of, response_of, buffer_after};
ghost use Rattle.respond.specs.Respond.{count_of};

use judge::Judgement;
pub use listing::ROOM;
use listing::{Part, Refused, Report};

// P3: the most bytes that an input may have, the two of the length included.
const MOST_INPUT: usize = 65_536;

// The bytes of the chart's length.
const LENGTH_SIZE: usize = 2;

const TOO_LONG: Refused = Refused {
    part: Part::Input,
    number: 40,
    offset: 0,
};

const NO_FRAME: Refused = Refused {
    part: Part::Input,
    number: 41,
    offset: 0,
};

// P12: the buffer may be too short.
#[derive(Clone, Copy, Debug, PartialEq, Eq)]
pub struct TooShort;

// What judging says.
fn report_log(j: Judgement) -> Report
    ensures { result ≡ log_report (said j) }
{
    match j.answer {
        Ok(()) => Ok(j.verdict),
        Err(refusal) => Err(Refused {
            part: Part::Log,
            number: u8::from(refusal),
            offset: refusal.offset(),
        }),
    }
}

// The chart is read, then the log judged.
pub fn report_parts(chart: &[u8], log: &[u8]) -> Report
    ensures { result ≡ parts_report chart.now log.now }
{
    let read = chart_reader::read(chart);
    match read.answer {
        Err(fault) => Err(Refused {
            part: Part::Chart,
            number: u8::from(fault.refusal),
            offset: fault.offset,
        }),
        Ok(()) => report_log(judge::judge(read.chart, log)),
    }
}

// P3, P4: the chart and the log of an input.
fn parts(input: &[u8]) -> Result<(&[u8], &[u8]), Refused>
    ensures ok { IfOk result (λ p. report_of input.now ≡ parts_report p.0.now p.1.now) }
    ensures err { IfErr result (λ e. report_of input.now ≡ Err e) }
{
    if MOST_INPUT < input.len() {
        return Err(TOO_LONG);
    }
    if input.len() < LENGTH_SIZE {
        return Err(NO_FRAME);
    }
    let n = usize::from(wire::word16_at(input, 0));
    input[LENGTH_SIZE..].split_at_checked(n).ok_or(NO_FRAME)
}

// P1 to P4: the input taken apart.
fn report(input: &[u8]) -> Report
    ensures { result ≡ report_of input.now }
{
    let (chart, log) = parts(input)?;
    report_parts(chart, log)
}

// Puts the text for an input at the start of the buffer, and answers its length. The bytes after it stay as they were;
// in a buffer with fewer than ROOM bytes all stay.
pub fn respond(input: &[u8], out: &mut [u8]) -> Result<usize, TooShort>
    ensures answer { result ≡ response_of (length out.old) (text_of input.now) }
    ensures buffer { out.new ≡ buffer_after out.old (text_of input.now) }
    ensures within { count_of result ≤ length out.new }
    ensures unchanged { input.exit.now ≡ input.entry.now }
{
    if out.len() < ROOM {
        return Err(TooShort);
    }
    Ok(listing::put_report(out, report(input)))
}
