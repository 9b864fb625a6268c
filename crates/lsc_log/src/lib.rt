// V22: the exported function that feeds the records of a log's bytes. 12 is a buffer with too few places. In an archive
// of its own the loop over the records is the only caller of the step, which the compiler then takes in.
#![tactic(auto)]

ghost use Rattle.std.specs.Prelude.{◌≡◌, cond, [], ◌∷◌, ◌≤◌, eqb, length};
ghost use Rattle.wire.specs.Writing.{starting_with, word_bytes};
ghost use Rattle.model.specs.Answers.{not_a_chart, not_fit};
ghost use Rattle.live.specs.Live.{is_live};
ghost use Rattle.feed_log.specs.Feeds.{number_of};
ghost use Rattle.lsc_log.specs.Log.{kind_size, kind_of, kind_bytes, log_places, log_numbers, kind_after};
ghost use Rattle.lsc_log.specs.Log.{numbers_after, CallsLog, CallsTell};

use feed_log::LogFed;
use log_clock::Kind;
use model::{NOT_A_CHART, NOT_FIT, Stamp, TOO_SHORT};

// The bytes of a kind, and how many places of a buffer the numbers take.
const KIND_SIZE: usize = 5;

const LOG_PLACES: usize = 9;

const UNSET: u8 = 0;

const PLAIN: u8 = 1;

const RAW: u8 = 2;

// The kind in its bytes.
fn kind_at(bytes: &[u8]) -> Kind
    ensures { result ≡ kind_of bytes.now }
{
    let tag = wire::byte_at(bytes, 0);
    if tag == UNSET {
        return Kind::Unset;
    }
    if tag == PLAIN {
        return Kind::Plain;
    }
    Kind::Raw(Stamp(wire::word32_at(bytes, 1)))
}

// Puts a byte and a stamp.
fn put_tagged(out: &mut [u8], tag: u8, stamp: u32)
    requires { kind_size ≤ length out.old }
    ensures { out.new ≡ starting_with (tag ∷ word_bytes stamp) out.old }
{
    out[0] = tag;
    out[1..KIND_SIZE].copy_from_slice(&stamp.to_be_bytes());
}

// Puts a kind.
fn put_kind(out: &mut [u8], kind: Kind)
    requires { kind_size ≤ length out.old }
    ensures { out.new ≡ starting_with (kind_bytes kind) out.old }
{
    match kind {
        Kind::Unset => put_tagged(out, UNSET, 0),
        Kind::Plain => put_tagged(out, PLAIN, 0),
        Kind::Raw(s) => put_tagged(out, RAW, s.0),
    }
}

// Puts the numbers of a call.
fn put_numbers(out: &mut [u64], r: LogFed)
    requires { log_places ≤ length out.old }
    ensures { out.new ≡ starting_with (log_numbers r) out.old }
{
    let counts = r.counts;
    let numbers = [
        u64::from(r.taken),
        r.place as u64,
        u64::from(r.last),
        u64::from(counts[0]),
        u64::from(counts[1]),
        u64::from(counts[2]),
        u64::from(counts[3]),
        u64::from(counts[4]),
        u64::from(counts[5]),
    ];
    wire::put_numbers(out, numbers);
}

// Puts the kind after a call that took records.
fn put_kind_after(out: &mut [u8], taken: u32, kind: Kind)
    requires { kind_size ≤ length out.old }
    ensures { out.new
        ≡ cond (eqb taken 0) out.old (starting_with (kind_bytes kind) out.old) }
{
    if taken == 0 {
        return;
    }
    put_kind(out, kind)
}

// Puts what a call says, and gives the number to return.
fn put_said(kind: &mut [u8], out: &mut [u64], r: LogFed) -> u8
    requires kind_size_in_bounds { kind_size ≤ length kind.old }
    requires log_places_in_bounds { log_places ≤ length out.old }
    ensures number { result ≡ number_of r.stop }
    ensures kind { kind.new ≡ kind_after r kind.old }
    ensures numbers { out.new ≡ numbers_after r out.old }
{
    let number = u8::from(r.stop);
    if (number == NOT_A_CHART) | (number == NOT_FIT) {
        return number;
    }
    let after = r.kind;
    put_kind_after(kind, r.taken, after);
    put_numbers(out, r);
    number
}

// A kind that there is not is unfit; without a live monitor that comes first.
fn no_kind(live: &[u8]) -> u8
    ensures { result ≡ cond (is_live live.now) not_fit not_a_chart }
{
    match live::chart_if_live(live) {
        Some(_) => NOT_FIT,
        None => NOT_A_CHART,
    }
}

// Feeds the records that stand in a log's bytes.
#[unsafe(no_mangle)]
pub extern "C" fn lsc_feed_log(live: &mut [u8], kind: &mut [u8], log: &[u8], out: &mut [u64]) -> u8
    ensures fed { CallsLog live.old kind.old log.now out.old result
        live.new kind.new out.new }
    ensures only { CallsTell }
    ensures unchanged { log.exit.now ≡ log.entry.now }
{
    if (kind.len() < KIND_SIZE) | (out.len() < LOG_PLACES) {
        return TOO_SHORT;
    }
    if RAW < wire::byte_at(kind, 0) {
        return no_kind(live);
    }
    let r = feed_log::feed_log(live, kind_at(kind), log);
    put_said(kind, out, r)
}
