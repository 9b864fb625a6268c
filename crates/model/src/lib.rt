// The vocabulary: times, messages, terms, regions, charts, records, monitors, answers and verdicts, as values.
#![tactic(auto)]

ghost use Rattle.std.specs.Prelude.{◌≡◌, [], ◌∷◌, ℕ, ◌-◌, ◌<◌, ◌≤◌, length};
ghost use Rattle.bitset.specs.Set.{contains};
ghost use Rattle.wire.specs.Writing.{starting_with};
ghost use Rattle.model.specs.Chart.{zero_term, zero_region, zero_chart, is_plain, is_bare, line_set, touched, touches};
ghost use Rattle.model.specs.Chart.{most_lines, most_regions};
ghost use Rattle.model.specs.Monitor.{no_cause, cause_of, zero_break, zero_monitor, time_of, stamp_of, at_moment};
ghost use Rattle.model.specs.Answers.{feed_refusal_number, answer_number, fed_number, zero_verdict};
ghost use Rattle.model.specs.Numbers.{places, verdict_numbers, answer_cause, fed_cause, relation_number};

pub const LEAST_LINES: u8 = 2;

pub const MOST_LINES: u8 = 16;

pub const MOST_CLOCKS: u8 = 8;

pub const MOST_REGIONS: usize = 32;

pub const MOST_TERMS: usize = 4;

pub const MOST_RECORDS: u32 = 1_000_000;

// One place for each clock that a chart may have.
pub const CLOCK_PLACES: usize = MOST_CLOCKS as usize;

// A moment (C15): the ticks since the log began.
#[derive(Clone, Copy, Debug, PartialEq, Eq)]
pub struct Moment(pub u32);

// A length (C15): the ticks between two moments.
#[derive(Clone, Copy, Debug, PartialEq, Eq)]
pub struct Length(pub u32);

// A raw stamp (L8): what a counter of 32 bits showed, which begins again at 0. It is neither a moment nor a length.
#[derive(Clone, Copy, Debug, PartialEq, Eq)]
pub struct Stamp(pub u32);

impl Moment {
    // The length from an earlier moment to this one.
    pub fn since(self, earlier: Moment) -> Length
        requires { earlier.0 ≤ self.0 }
        ensures { result.0 ≡ self.0 - earlier.0 }
    {
        Length(self.0 - earlier.0)
    }
}

#[derive(Clone, Copy, Debug, PartialEq, Eq)]
pub struct Message {
    pub source: u8,
    pub destination: u8,
    pub label: u16,
}

// What a region waits for: a message, or, for a plain region, nothing; a plain region names its lines as a set.
#[derive(Clone, Copy, Debug, PartialEq, Eq)]
pub enum Event {
    Message(Message),
    Plain(u16),
}

#[derive(Clone, Copy, Debug, PartialEq, Eq)]
pub enum Relation {
    Less,
    AtMost,
    Equal,
    AtLeast,
    More,
}

// The relation's number: its byte in a chart, and its row in the table of conditions.
impl From<Relation> for u8 {
    ghost from_gives = { λ e n. n ≡ relation_number e };

    fn from(e: Relation) -> u8 {
        match e {
            Relation::Less => 0,
            Relation::AtMost => 1,
            Relation::Equal => 2,
            Relation::AtLeast => 3,
            Relation::More => 4,
        }
    }
}

// The left side of a term: a clock, or the first clock minus the second.
#[derive(Clone, Copy, Debug, PartialEq, Eq)]
pub enum Left {
    Clock(u8),
    Difference(u8, u8),
}

// A term `left relation n`; n is the 32 bits of a signed number.
#[derive(Clone, Copy, Debug, PartialEq, Eq)]
pub struct Term {
    pub left: Left,
    pub relation: Relation,
    pub n: u32,
}

// A region; `rest` is the mark of a place to rest (C20), `hot` its condition's temperature, `resets` a set of clocks.
// Here and in a chart a count stands beside an array: a caller's value may hold any count, and M4 says which are charts.
#[derive(Clone, Copy, Debug, PartialEq, Eq)]
pub struct Region {
    pub event: Event,
    pub rest: bool,
    pub terms: [Term; MOST_TERMS],
    pub count: u8,
    pub hot: bool,
    pub resets: u8,
}

// A chart: its regions in file order, of which the first `prechart` are the prechart's.
#[derive(Clone, Copy, Debug, PartialEq, Eq)]
pub struct Chart {
    pub lines: u8,
    pub clocks: u8,
    pub prechart: u8,
    pub count: u8,
    pub regions: [Region; MOST_REGIONS],
}

pub fn zero_term() -> Term
    ensures { result ≡ zero_term }
{
    Term {
        left: Left::Clock(0),
        relation: Relation::Less,
        n: 0,
    }
}

pub fn zero_region() -> Region
    ensures { result ≡ zero_region }
{
    let t = zero_term();
    Region {
        event: Event::Plain(0),
        rest: false,
        terms: [t; MOST_TERMS],
        count: 0,
        hot: false,
        resets: 0,
    }
}

pub fn zero_chart() -> Chart
    ensures { result ≡ zero_chart }
{
    let z = zero_region();
    let regions = [z; MOST_REGIONS];
    Chart {
        lines: 0,
        clocks: 0,
        prechart: 0,
        count: 0,
        regions,
    }
}

pub fn is_plain(e: Event) -> bool
    ensures { result ≡ is_plain e }
{
    matches!(e, Event::Plain(_))
}

// No message, no term, no reset: C14 forbids it.
pub fn is_bare(g: Region) -> bool
    ensures { result ≡ is_bare g }
{
    let e = g.event;
    is_plain(e) & ((g.count == 0) & (g.resets == 0))
}

// The set of line i alone; no chart has a line from 16 on.
fn line_set(i: u8) -> u16
    ensures { result ≡ line_set i }
{
    if i < MOST_LINES { 1 << i } else { 0 }
}

// The lines that a region touches.
pub fn touched(e: Event) -> u16
    ensures set { result ≡ touched e }
    ensures members { (k : ℕ) → k < most_lines → contains result k ≡ touches e k }
{
    match e {
        Event::Message(m) => line_set(m.source) | line_set(m.destination),
        Event::Plain(l) => l,
    }
}

// A record of the log: a message, or time alone.
#[derive(Clone, Copy, Debug, PartialEq, Eq)]
pub enum Record {
    Message(Message, Moment),
    Time(Moment),
}

// This, `stamp_of` and `at_moment` are functions as their definitions are: methods would be no plainer.
pub fn time_of(e: Record) -> Moment
    ensures { result ≡ time_of e }
{
    match e {
        Record::Message(_, t) => t,
        Record::Time(t) => t,
    }
}

// A record of a log with raw stamps (L7), which has no moment of its own.
#[derive(Clone, Copy, Debug, PartialEq, Eq)]
pub enum RawRecord {
    Message(Message, Stamp),
    Time(Stamp),
}

pub fn stamp_of(e: RawRecord) -> Stamp
    ensures { result ≡ stamp_of e }
{
    match e {
        RawRecord::Message(_, s) => s,
        RawRecord::Time(s) => s,
    }
}

// The raw record as a record at a moment.
pub fn at_moment(e: RawRecord, t: Moment) -> Record
    ensures { result ≡ at_moment e t }
{
    match e {
        RawRecord::Message(m, _) => Record::Message(m, t),
        RawRecord::Time(_) => Record::Time(t),
    }
}

// Where a round stands: the fired regions as a set, and each clock's reset moment.
#[derive(Clone, Copy, Debug, PartialEq, Eq)]
pub struct Place {
    pub fired: u32,
    pub resets: [Moment; CLOCK_PLACES],
}

// Which condition decided: its region and the first of its terms that fails, both counted from 1; zeros where none did.
// No Option, here and below: a monitor that a caller hands in may hold any numbers, and M10 says which of them fit.
#[derive(Clone, Copy, Debug, PartialEq, Eq)]
pub struct Cause {
    pub region: u8,
    pub term: u8,
}

// T31: no condition decided.
pub fn no_cause() -> Cause
    ensures { result ≡ no_cause }
{
    Cause { region: 0, term: 0 }
}

// T31: the cause for region i, whose number counts from 0 here, and its failing term.
pub fn cause_of(i: usize, term: u8) -> Cause
    requires { i < most_regions }
    ensures { result ≡ cause_of i term }
{
    Cause {
        region: i as u8 + 1,
        term,
    }
}

// Where and why a log is broken: the record's number, the reason and, for a condition, the cause; all zero if there is
// no break.
#[derive(Clone, Copy, Debug, PartialEq, Eq)]
pub struct Break {
    pub at: u32,
    pub reason: u8,
    pub cause: Cause,
}

// T1: there is no break.
pub fn no_break() -> Break
    ensures { result ≡ zero_break }
{
    Break {
        at: 0,
        reason: 0,
        cause: no_cause(),
    }
}

// Now, which is the time of the last record; how many records, kept and dropped rounds there were; the break.
#[derive(Clone, Copy, Debug, PartialEq, Eq)]
pub struct Tally {
    pub now: Moment,
    pub records: u32,
    pub kept: u32,
    pub dropped: u32,
    pub broken: Break,
}

// What a monitor holds.
#[derive(Clone, Copy, Debug, PartialEq, Eq)]
pub struct Monitor {
    pub place: Place,
    pub tally: Tally,
}

// T2: no region is fired, and every number is 0.
pub fn zero_monitor() -> Monitor
    ensures { result ≡ zero_monitor }
{
    let zero = Moment(0);
    let resets = [zero; CLOCK_PLACES];
    let place = Place { fired: 0, resets };
    let tally = Tally {
        now: zero,
        records: 0,
        kept: 0,
        dropped: 0,
        broken: no_break(),
    };
    Monitor { place, tally }
}

// N9: a buffer has too few places.
pub const TOO_SHORT: u8 = 12;

// N9: the refusals of a feed.
pub const NOT_A_CHART: u8 = 20;

pub const NOT_FIT: u8 = 21;

pub const TIME_FALLS: u8 = 22;

pub const TOO_MANY_RECORDS: u8 = 23;

// Why a record is refused.
#[derive(Clone, Copy, Debug, PartialEq, Eq)]
pub enum FeedRefusal {
    NotAChart,
    Unfit,
    TimeFalls,
    TooManyRecords,
}

// The answer to a record that is not refused (T27); a break with its record and reason; a break and a drop with their
// cause.
#[derive(Clone, Copy, Debug, PartialEq, Eq)]
pub enum Answer {
    Broken(u32, u8, Cause),
    Kept,
    Dropped(Cause),
    Entered,
    Moved,
    Quiet,
}

impl From<FeedRefusal> for u8 {
    ghost from_gives = { λ k n. n ≡ feed_refusal_number k };

    fn from(k: FeedRefusal) -> u8 {
        match k {
            FeedRefusal::NotAChart => NOT_A_CHART,
            FeedRefusal::Unfit => NOT_FIT,
            FeedRefusal::TimeFalls => TIME_FALLS,
            FeedRefusal::TooManyRecords => TOO_MANY_RECORDS,
        }
    }
}

impl From<Answer> for u8 {
    ghost from_gives = { λ a n. n ≡ answer_number a };

    fn from(a: Answer) -> u8 {
        match a {
            Answer::Broken(_, _, _) => 1,
            Answer::Kept => 2,
            Answer::Dropped(_) => 3,
            Answer::Entered => 4,
            Answer::Moved => 5,
            Answer::Quiet => 6,
        }
    }
}

impl Answer {
    // The cause that the answer has; zeros for every answer but broken and dropped.
    pub fn cause(self) -> Cause
        ensures { result ≡ answer_cause self }
    {
        match self {
            Answer::Broken(_, _, cause) | Answer::Dropped(cause) => cause,
            _ => no_cause(),
        }
    }
}

// The number of what a feed says: that of the answer, or of the refusal. A function and no From, since Result and u8
// are both the library's.
pub fn fed_number(fed: Result<Answer, FeedRefusal>) -> u8
    ensures { result ≡ fed_number fed }
{
    match fed {
        Ok(answer) => u8::from(answer),
        Err(refusal) => u8::from(refusal),
    }
}

// The cause that a feed gives out; zeros with a refusal.
pub fn fed_cause(fed: Result<Answer, FeedRefusal>) -> Cause
    ensures { result ≡ fed_cause fed }
{
    match fed {
        Ok(answer) => answer.cause(),
        Err(_) => no_cause(),
    }
}

// What judging a log finds: the numbers of J6, all zero for a refused log (J5). Numbers and no enum for the standing too:
// `put_verdict` takes any.
#[derive(Clone, Copy, Debug, PartialEq, Eq)]
pub struct Verdict {
    pub standing: u8,
    pub kept: u32,
    pub dropped: u32,
    pub records: u32,
    pub broken: u32,
    pub reason: u8,
    pub region: u8,
    pub term: u8,
}

// J5: the verdict of a refused log.
pub fn zero_verdict() -> Verdict
    ensures { result ≡ zero_verdict }
{
    Verdict {
        standing: 0,
        kept: 0,
        dropped: 0,
        records: 0,
        broken: 0,
        reason: 0,
        region: 0,
        term: 0,
    }
}

// How many places of a buffer a verdict or a refusal takes.
pub const PLACES: usize = 8;

impl From<Verdict> for [u64; PLACES] {
    ghost from_gives = { λ v numbers. numbers ≡ verdict_numbers v };

    fn from(v: Verdict) -> [u64; PLACES] {
        [
            u64::from(v.standing),
            u64::from(v.kept),
            u64::from(v.dropped),
            u64::from(v.records),
            u64::from(v.broken),
            u64::from(v.reason),
            u64::from(v.region),
            u64::from(v.term),
        ]
    }
}

// Puts a verdict's numbers at the start of a buffer.
pub fn put_verdict(out: &mut [u64], v: Verdict)
    requires { places ≤ length out.old }
    ensures { out.new ≡ starting_with (verdict_numbers v) out.old }
{
    wire::put_numbers(out, v.into());
}
