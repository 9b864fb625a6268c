// J2, J3: the check of a log. A record that has no fault is met from its bytes; at anything else the check ends, and
// looks there once more for the fault.
#![tactic(auto)]

ghost use Rattle.std.specs.Prelude.{◌≡◌, ◌+◌, ◌%◌, ◌<◌, length};
ghost use Rattle.model.specs.Monitor.{time_of};
ghost use Rattle.log_reader.specs.Next.{next_at};
ghost use Rattle.log_clock.specs.Clock.{range};
ghost use Rattle.log_check.specs.Refusal.{judge_refusal_offset};
ghost use Rattle.log_check.specs.Check.{take_record, step_at, check_from, check_log};
ghost use Rattle.log_check.specs.Met.{plain_pace, raw_pace, pace_of, kind_by, kind_in, in_time, met_if, met_at};
ghost use Rattle.log_check.specs.Met.{Steady, code_of, ended_by};

pub mod pace;

use log_clock::{Dated, Kind, MomentRefusal, Undated};
use log_reader::{MESSAGE_SIZE, MESSAGE_TAG, Next, RAW_MESSAGE_TAG, RecordRefusal, TIME_SIZE};
use model::{MOST_RECORDS, Moment, NOT_A_CHART, Stamp, TOO_MANY_RECORDS};
pub use pace::Pace;

// Why a log is refused.
#[derive(Clone, Copy)]
pub enum LogRefusal {
    NoRecord(RecordRefusal),
    NoMoment(MomentRefusal),
    TooManyRecords,
}

impl From<Undated> for LogRefusal {
    ghost use Rattle.log_check.specs.Refusal.{refusal_of};

    ghost from_gives = { λ undated why. why ≡ refusal_of undated };

    fn from(undated: Undated) -> LogRefusal {
        match undated {
            Undated::NoRecord(why) => LogRefusal::NoRecord(why),
            Undated::NoMoment(why) => LogRefusal::NoMoment(why),
        }
    }
}

impl From<LogRefusal> for u8 {
    ghost use Rattle.log_check.specs.Refusal.{log_refusal_number};

    ghost from_gives = { λ why n. n ≡ log_refusal_number why };

    fn from(why: LogRefusal) -> u8 {
        match why {
            LogRefusal::NoRecord(why) => u8::from(why),
            LogRefusal::NoMoment(why) => u8::from(why),
            LogRefusal::TooManyRecords => TOO_MANY_RECORDS,
        }
    }
}

// The fault of a log: why it is refused, and the offset of the record.
#[derive(Clone, Copy)]
pub struct LogFault {
    pub why: LogRefusal,
    pub at: usize,
}

// Why a log is not judged: the chart value is none, or the log has a fault.
#[derive(Clone, Copy)]
pub enum JudgeRefusal {
    NotAChart,
    Log(LogFault),
}

impl From<LogFault> for JudgeRefusal {
    ghost use Rattle.log_check.specs.declared.JudgeRefusal.TheVariants.{Log};

    ghost from_gives = { λ fault refusal. refusal ≡ Log fault };

    fn from(fault: LogFault) -> JudgeRefusal {
        JudgeRefusal::Log(fault)
    }
}

impl From<JudgeRefusal> for u8 {
    ghost use Rattle.log_check.specs.Refusal.{judge_refusal_number};

    ghost from_gives = { λ refusal n. n ≡ judge_refusal_number refusal };

    fn from(refusal: JudgeRefusal) -> u8 {
        match refusal {
            JudgeRefusal::NotAChart => NOT_A_CHART,
            JudgeRefusal::Log(fault) => u8::from(fault.why),
        }
    }
}

impl JudgeRefusal {
    // The offset of the fault; 0 where there is no chart.
    pub fn offset(self) -> usize
        ensures { result ≡ judge_refusal_offset self }
    {
        match self {
            JudgeRefusal::NotAChart => 0,
            JudgeRefusal::Log(fault) => fault.at,
        }
    }
}

// J3: 22 of a plain record, and 23, of a record at its moment; with none the count stays.
fn take_record(d: Dated, at: usize, last: Moment, records: u32) -> Result<u32, LogFault>
    ensures { result ≡ ended_by records
        (take_record d.kind (time_of d.item) d.past at last records) }
{
    if model::time_of(d.item).0 < last.0 {
        return Err(LogFault {
            why: LogRefusal::NoMoment(MomentRefusal::Falls),
            at,
        });
    }
    if MOST_RECORDS <= records {
        return Err(LogFault {
            why: LogRefusal::TooManyRecords,
            at,
        });
    }
    Ok(records)
}

// Where the check ends: with the log, or with the fault of the record there.
#[tactic(auto, unfolding(crate::specs::Check::step_at))]
pub fn ended_at(
    log: &[u8],
    at: usize,
    kind: Kind,
    last: Moment,
    records: u32,
) -> Result<u32, LogFault>
    ensures { result ≡ ended_by records (step_at log.now at kind last records) }
{
    match log_clock::record_at(log, at, kind, last) {
        Ok(None) => Ok(records),
        Ok(Some(d)) => take_record(d, at, last, records),
        Err(undated) => Err(LogFault {
            why: LogRefusal::from(undated),
            at,
        }),
    }
}

// The most ticks of a plain log, whose times only have 32 bits, and of a raw one (J11).
const MOST_TICKS: u64 = 0xFFFF_FFFF;

const MOST_RAW_TICKS: u64 = 0x7FFF_FFFF;

pub fn plain_pace() -> Pace
    ensures { result ≡ plain_pace }
{
    Pace {
        message: MESSAGE_TAG,
        origin: 0,
        most: MOST_TICKS,
    }
}

// The pace of a raw log that counts moment 0 at this stamp.
pub fn raw_pace(origin: u32) -> Pace
    ensures { result ≡ raw_pace origin }
{
    Pace {
        message: RAW_MESSAGE_TAG,
        origin,
        most: MOST_RAW_TICKS,
    }
}

// The log's first record decides.
pub fn pace_of(first: Result<Next, RecordRefusal>) -> Pace
    ensures { result ≡ pace_of first }
{
    match first {
        Ok(Next::Raw(e, _)) => raw_pace(model::stamp_of(e).0),
        _ => plain_pace(),
    }
}

// The log's kind at a moment, by a pace's message byte and origin: the counter shows the origin and as many ticks. It
// takes any numbers, so it takes no Pace.
pub fn kind_in(message: u8, origin: u32, last: Moment) -> Kind
    ensures { result ≡ kind_by message origin last }
{
    if message == RAW_MESSAGE_TAG {
        return Kind::Raw(Stamp(std::num::wrapping_add_u32(last.0, origin)));
    }
    Kind::Plain
}

// The moment of a time or stamp is the ticks since the origin, round the wrap; for a plain record, whose origin is 0,
// that is its time.
fn moment_of(word: u32, origin: u32) -> Moment
    ensures within { result.0 < range }
    ensures counted { (result.0 + origin) % range ≡ word }
{
    Moment(std::num::wrapping_sub_u32(word, origin))
}

// A record that has no fault: its message's code, its moment and the offset just after it.
#[derive(Clone, Copy)]
pub struct MetRecord {
    pub code: u64,
    pub time: Moment,
    pub past: usize,
}

// Whether a record may come at a moment after the last. One that comes before is a wrapped difference away, and that is
// more ticks than any pace has.
fn in_time(pace: Pace, last: Moment, t: Moment) -> bool
    ensures { result ≡ in_time pace last t }
{
    std::num::wrapping_sub_u64(u64::from(t.0), u64::from(last.0)) <= pace.most
}

fn met_if(
    pace: Pace,
    last: Moment,
    records: u32,
    code: u64,
    t: Moment,
    past: usize,
) -> Option<MetRecord>
    ensures { result ≡ met_if pace last records code t past }
{
    if in_time(pace, last, t) {
        if records < MOST_RECORDS {
            return Some(MetRecord {
                code,
                time: t,
                past,
            });
        }
    }
    None
}

// In a message's code the label stands above the lines, in a record's bytes below them.
const HALF: u32 = 0x1_0000;

// The code of the message whose lines and label are these four bytes.
fn code_of(parts: u32) -> u64
    ensures { result ≡ code_of parts }
{
    u64::from(parts % HALF * HALF + parts / HALF) + 1
}

// The record at an offset, after so many records, the last of them at the moment `last`. It is met from its bytes:
// computed from the record's value, its code would be stored and loaded in pieces, which costs more than all else that
// is done for a record.
pub fn met_at(log: &[u8], at: usize, pace: Pace, last: Moment, records: u32) -> Option<MetRecord>
    requires { at < length log.now }
    ensures met { result ≡ met_at log.now at pace last records }
    ensures steady { Steady log.now at pace last records }
{
    let tag = log[at];
    if tag == pace.message {
        if at + MESSAGE_SIZE <= log.len() {
            let code = code_of(wire::word32_in(log, at + 1));
            let t = moment_of(wire::word32_in(log, at + 5), pace.origin);
            return met_if(pace, last, records, code, t, at + MESSAGE_SIZE);
        }
        return None;
    }
    if tag == pace.message + 1 {
        if at + TIME_SIZE <= log.len() {
            let t = moment_of(wire::word32_in(log, at + 1), pace.origin);
            return met_if(pace, last, records, 0, t, at + TIME_SIZE);
        }
    }
    None
}

// The check from an offset on, after so many records, the last of them at the moment `time`.
fn check_from(
    log: &[u8],
    pace: Pace,
    from: usize,
    time: Moment,
    count: u32,
) -> Result<u32, LogFault>
    ensures { result ≡ check_from (length log.now + 1) log.now from (kind_in pace time) time count }
{
    let mut at = from;
    let mut last = time;
    let mut records = count;
    // A loop by hand: it moves by each record's length.
    while at < log.len() {
        let Some(met) = met_at(log, at, pace, last, records) else {
            let kind = kind_in(pace.message, pace.origin, last);
            return ended_at(log, at, kind, last, records);
        };
        at = met.past;
        last = met.time;
        records += 1;
    }
    Ok(records)
}

// The check of what is left of a log, of which the first record decides the kind.
pub fn check_rest(log: &[u8], at: usize, last: Moment, records: u32) -> Result<u32, LogFault>
    ensures rest { result ≡ check_from (length log.now + 1) log.now at
        (kind_in (pace_of (next_at log.now 0)) last) last records }
    ensures unchanged { log.exit.now ≡ log.entry.now }
{
    check_from(
        log,
        pace_of(log_reader::read_record(log, 0)),
        at,
        last,
        records,
    )
}

// J2: the check of the whole log.
pub fn check_log(log: &[u8]) -> Result<u32, LogFault>
    ensures check { result ≡ check_log log.now }
    ensures unchanged { log.exit.now ≡ log.entry.now }
{
    check_rest(log, 0, Moment(0), 0)
}
