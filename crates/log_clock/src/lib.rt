// The moments of a log's records: a plain record has its own, a raw one gets it from the stamps (L11).
#![tactic(auto)]

ghost use Rattle.std.specs.Prelude.{◌≡◌, ℕ, ◌-◌, ◌%◌, ◌<◌, ◌≤◌};
ghost use Rattle.log_clock.specs.Clock.{range, half_range, gap_of};
ghost use Rattle.log_clock.specs.Clock.{plain_moment, later_moment, raw_moment};
ghost use Rattle.log_clock.specs.Dated.{dated_at};
ghost use Rattle.log_clock.specs.TrueTimes.{TrueTimes};

use log_reader::{Next, RecordRefusal};
use model::{Length, Moment, Record, Stamp, TIME_FALLS};

// Which kind of records a log has so far; for raw ones with the stamp of the last.
#[derive(Clone, Copy)]
pub enum Kind {
    Unset,
    Plain,
    Raw(Stamp),
}

// Why a record has no moment.
#[derive(Clone, Copy)]
pub enum MomentRefusal {
    Mixed,
    Falls,
    TooLate,
}

// A record at its moment, the log's kind with it, and the offset just after it.
#[derive(Clone, Copy)]
pub struct Dated {
    pub item: Record,
    pub kind: Kind,
    pub past: usize,
}

// Why no record with a moment stands at an offset.
#[derive(Clone, Copy)]
pub enum Undated {
    NoRecord(RecordRefusal),
    NoMoment(MomentRefusal),
}

impl From<RecordRefusal> for Undated {
    ghost use Rattle.log_clock.specs.declared.Undated.TheVariants.{NoRecord};

    ghost from_gives = { λ why undated. undated ≡ NoRecord why };

    fn from(why: RecordRefusal) -> Undated {
        Undated::NoRecord(why)
    }
}

impl From<MomentRefusal> for Undated {
    ghost use Rattle.log_clock.specs.declared.Undated.TheVariants.{NoMoment};

    ghost from_gives = { λ why undated. undated ≡ NoMoment why };

    fn from(why: MomentRefusal) -> Undated {
        Undated::NoMoment(why)
    }
}

// N9: the refusals.
const TOO_LATE: u8 = 24;

const TWO_KINDS: u8 = 32;

const HALF_RANGE: u32 = 0x8000_0000;

const RANGE: u64 = 0x1_0000_0000;

impl From<MomentRefusal> for u8 {
    ghost use Rattle.log_clock.specs.Clock.{moment_refusal_number};

    ghost from_gives = { λ why n. n ≡ moment_refusal_number why };

    fn from(why: MomentRefusal) -> u8 {
        match why {
            MomentRefusal::Mixed => TWO_KINDS,
            MomentRefusal::Falls => TIME_FALLS,
            MomentRefusal::TooLate => TOO_LATE,
        }
    }
}

// The ticks from one raw stamp to another, round the wrap; below half the range they are the true gap.
pub fn gap(from: Stamp, to: Stamp) -> Length
    ensures wraps { result.0 ≡ gap_of from to }
    ensures exact { (a b : ℕ) → a ≤ b → b - a < half_range → from.0 ≡ a % range → to.0 ≡ b % range
        → result.0 ≡ b - a }
{
    Length(std::num::wrapping_sub_u32(to.0, from.0))
}

// L9, L12: the moment of a plain record, after records of this kind.
pub fn plain_moment(kind: Kind, time: Moment) -> Result<Moment, MomentRefusal>
    ensures { result ≡ plain_moment kind time }
{
    match kind {
        Kind::Unset => Ok(time),
        Kind::Plain => Ok(time),
        Kind::Raw(_) => Err(MomentRefusal::Mixed),
    }
}

// J11, J12: the moment that is a gap after the last one; their sum may need 33 bits.
fn later_moment(last: Moment, gap: Length) -> Result<Moment, MomentRefusal>
    ensures { result ≡ later_moment last gap.0 }
{
    if HALF_RANGE <= gap.0 {
        return Err(MomentRefusal::Falls);
    }
    if RANGE <= last.0 as u64 + gap.0 as u64 {
        return Err(MomentRefusal::TooLate);
    }
    Ok(Moment(last.0 + gap.0))
}

// L9, L11: the moment of a raw stamp, after records of this kind, the last of them at the moment `last`.
pub fn raw_moment(kind: Kind, last: Moment, to: Stamp) -> Result<Moment, MomentRefusal>
    ensures { result ≡ raw_moment kind last to }
{
    match kind {
        Kind::Unset => Ok(Moment(0)),
        Kind::Plain => Err(MomentRefusal::Mixed),
        Kind::Raw(from) => later_moment(last, gap(from, to)),
    }
}

// The record at an offset with its moment, after records of this kind, the last of them at the moment `last`.
#[tactic(auto, unfolding(crate::specs::Dated::dated_at))]
pub fn record_at(log: &[u8], at: usize, kind: Kind, last: Moment) -> Result<Option<Dated>, Undated>
    ensures { result ≡ dated_at log.now at kind last }
{
    match log_reader::read_record(log, at)? {
        Next::End => Ok(None),
        Next::Handed(e, past) => {
            plain_moment(kind, model::time_of(e))?;
            Ok(Some(Dated {
                item: e,
                kind: Kind::Plain,
                past,
            }))
        }
        Next::Raw(e, past) => {
            let stamp = model::stamp_of(e);
            let t = raw_moment(kind, last, stamp)?;
            Ok(Some(Dated {
                item: model::at_moment(e, t),
                kind: Kind::Raw(stamp),
                past,
            }))
        }
    }
}

// L13: carries what is promised of the moments of raw stamps.
pub fn true_times()
    ensures { TrueTimes }
{}
