// V7, V8: the exported functions of whole logs. 0 is success, 12 a buffer with too few places.
#![tactic(auto)]

ghost use Rattle.std.specs.Prelude.{◌≡◌, true, ◌≤◌, length};
ghost use Rattle.wire.specs.Writing.{starting_with};
ghost use Rattle.model.specs.Numbers.{places};
ghost use Rattle.respond.specs.Respond.{parts_report, text_of, response_of, buffer_after, count_of};
ghost use Rattle.lsc.specs.Lsc.{report_numbers, report_number, judged_number, judged_out};
ghost use Rattle.lsc.specs.Lsc.{is_judged_number, printed_number};

use listing::Report;
use model::{PLACES, TOO_SHORT};
use respond::TooShort;

// The report's eight numbers, and the number to return.
fn put_report(out: &mut [u64], report: Report) -> u8
    requires { places ≤ length out.old }
    ensures number { result ≡ report_number report }
    ensures numbers { out.new ≡ starting_with (report_numbers report) out.old }
{
    match report {
        Ok(v) => {
            model::put_verdict(out, v);
            0
        }
        Err(refused) => {
            let part = u64::from(refused.part);
            let number = refused.number;
            let offset = refused.offset as u64;
            wire::put_numbers(out, [part, number.into(), offset, 0, 0, 0, 0, 0]);
            number
        }
    }
}

// Judges a whole log against a chart.
#[unsafe(no_mangle)]
pub extern "C" fn lsc_judge(chart: &[u8], log: &[u8], out: &mut [u64]) -> u8
    ensures number { result ≡ judged_number (parts_report chart.now log.now)
        out.old }
    ensures listed { is_judged_number result ≡ true }
    ensures numbers { out.new ≡ judged_out (parts_report chart.now log.now)
        out.old }
    ensures unchanged { (chart.exit.now ≡ chart.entry.now) × (log.exit.now ≡ log.entry.now) }
{
    if out.len() < PLACES {
        return TOO_SHORT;
    }
    put_report(out, respond::report_parts(chart, log))
}

// The printing program as a function.
#[unsafe(no_mangle)]
pub extern "C" fn lsc_print(input: &[u8], out: &mut [u8], written: &mut u64) -> u8
    ensures number { result ≡ printed_number (response_of (length out.old) (text_of input.now)) }
    ensures count { written.new
        ≡ count_of (response_of (length out.old) (text_of input.now)) }
    ensures buffer { out.new ≡ buffer_after out.old (text_of input.now) }
    ensures unchanged { input.exit.now ≡ input.entry.now }
{
    match respond::respond(input, out) {
        Ok(n) => {
            *written = n as u64;
            0
        }
        Err(TooShort) => {
            *written = 0;
            TOO_SHORT
        }
    }
}
