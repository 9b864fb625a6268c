// Reading a chart: the state between two commands, and what one command does to it.
#![tactic(auto)]

ghost use Rattle.std.specs.Prelude.{◌≡◌};
ghost use Rattle.chart_step.specs.Refusal.{refusal_number, refusal_of};
ghost use Rattle.chart_step.specs.Reading.{when, closed, closing_fault, closes, fault_of, is_misplaced, is_outside};
ghost use Rattle.chart_step.specs.Reading.{is_excess, is_early, is_resting, is_unanchored, is_mainless, is_trailing};
ghost use Rattle.chart_step.specs.Reading.{with_heading, begun_with};
ghost use Rattle.chart_step.specs.Reading.{relation_of, with_region, with_term, with_hot, with_rest, with_resets};
ghost use Rattle.chart_step.specs.Reading.{with_chart, with_main, applied, step_of};

use chart_command::{Command, Undecoded};
use model::{
    Chart, Event, LEAST_LINES, Left, MOST_CLOCKS, MOST_LINES, MOST_REGIONS, MOST_TERMS, Message,
    Region, Relation, Term,
};

const RELATIONS: u8 = 5;

// Why a chart is refused (R4), from 1 to 11, and 13 after 8: too few bytes are left; no command has the byte; a command
// is out of place; an operand is out of its range; there is a region or a term too many; a plain region lacks both term
// and reset; a hot region has no term; a region of the prechart is hot; one of the prechart is marked as a place to
// rest; no region is above a plain one of the opening half; the main chart has no region; bytes follow the end.
#[derive(Clone, Copy, Debug, PartialEq, Eq)]
pub enum Refusal {
    CutShort,
    Unknown,
    Misplaced,
    Outside,
    Excess,
    Bare,
    HotAlone,
    Early,
    RestInPrechart,
    Unanchored,
    Mainless,
    Trailing,
}

// The refusal's number.
impl From<Refusal> for u8 {
    ghost from_gives = { λ refusal number. number ≡ refusal_number refusal };

    fn from(refusal: Refusal) -> u8 {
        match refusal {
            Refusal::CutShort => 1,
            Refusal::Unknown => 2,
            Refusal::Misplaced => 3,
            Refusal::Outside => 4,
            Refusal::Excess => 5,
            Refusal::Bare => 6,
            Refusal::HotAlone => 7,
            Refusal::Early => 8,
            Refusal::RestInPrechart => 13,
            Refusal::Unanchored => 9,
            Refusal::Mainless => 10,
            Refusal::Trailing => 11,
        }
    }
}

impl From<Undecoded> for Refusal {
    ghost from_gives = { λ undecoded refusal. refusal ≡ refusal_of undecoded };

    fn from(undecoded: Undecoded) -> Refusal {
        match undecoded {
            Undecoded::CutShort => Refusal::CutShort,
            Undecoded::Unknown => Refusal::Unknown,
        }
    }
}

// A refusal, and the offset that it is for.
#[derive(Clone, Copy, Debug, PartialEq, Eq)]
pub struct Fault {
    pub refusal: Refusal,
    pub offset: usize,
}

// What is known between two commands: whether the heading and 50 were read, whether a region was started in this half
// and at which offset, the lines that the regions started so far touch, the region last started, and the chart with the
// regions closed so far.
#[derive(Clone, Copy)]
pub struct Reading {
    pub headed: bool,
    pub main: bool,
    pub started: bool,
    pub start: usize,
    pub touched: u16,
    pub region: Region,
    pub chart: Chart,
}

// What a command leaves, and where the next one stands: nowhere after the end.
#[derive(Clone, Copy)]
pub struct Step {
    pub reading: Reading,
    pub next: Option<usize>,
}

fn when(found: bool, refusal: Refusal, offset: usize) -> Option<Fault>
    ensures { result ≡ when found refusal offset }
{
    found.then_some(Fault { refusal, offset })
}

// The chart with the region last started put in its place.
fn close(r: &Reading) -> Chart
    ensures { result ≡ closed r.now }
{
    let mut chart = r.chart;
    let n = r.chart.count;
    if r.started && (n as usize) < MOST_REGIONS {
        chart.regions[n as usize] = r.region;
        chart.count = n + 1;
    }
    chart
}

// How many regions that chart has.
fn closed_count(r: &Reading) -> u8
    ensures { result ≡ (closed r.now).count }
{
    let n = r.chart.count;
    if r.started && (n as usize) < MOST_REGIONS {
        n + 1
    } else {
        n
    }
}

// R5: the command is out of place.
fn is_misplaced(r: &Reading, c: Command) -> bool
    ensures { result ≡ is_misplaced r.now c }
{
    match c {
        Command::Heading(..) => r.headed,
        Command::Message(..) | Command::Plain(_) | Command::End => !r.headed,
        Command::ClockTerm(..) | Command::DifferenceTerm(..) => !r.started,
        Command::Hot => !r.started | r.region.hot,
        Command::Rest => !r.started | r.region.rest,
        Command::Resets(_) => !r.started | (r.region.resets != 0),
        Command::Main => !r.headed | r.main,
    }
}

// R6: 6 or 7, if a region was started in this half and has that fault.
fn closing_fault(r: &Reading) -> Option<Fault>
    ensures { result ≡ closing_fault r.now }
{
    let bare = r.started & model::is_bare(r.region);
    let hot_alone = r.started & (r.region.hot & (r.region.count == 0));
    when(bare, Refusal::Bare, r.start).or(when(hot_alone, Refusal::HotAlone, r.start))
}

// R6: the fault of the region that the command closes.
fn closes(r: &Reading, c: Command) -> Option<Fault>
    ensures { result ≡ closes r.now c }
{
    match c {
        Command::Message(..) | Command::Plain(_) | Command::Main | Command::End => closing_fault(r),
        _ => None,
    }
}

// R7: an operand is out of its range.
fn is_outside(chart: &Chart, c: Command) -> bool
    ensures { result ≡ is_outside chart.now c }
{
    let lines = chart.lines;
    let clocks = chart.clocks;
    match c {
        Command::Heading(l, k) => !((LEAST_LINES <= l) & ((l <= MOST_LINES) & (k <= MOST_CLOCKS))),
        Command::Message(s, d, _) => (lines <= s) | ((lines <= d) | (s == d)),
        Command::Plain(l) => (l == 0) | !bitset::within(lines as u32, l as u32),
        Command::ClockTerm(k, e, _) => (clocks <= k) | (RELATIONS <= e),
        Command::DifferenceTerm(a, b, e, _) => {
            (clocks <= a) | ((clocks <= b) | ((a == b) | (RELATIONS <= e)))
        }
        Command::Resets(k) => (k == 0) | !bitset::within(clocks as u32, k as u32),
        _ => false,
    }
}

// R4: one region or one term too many.
fn is_excess(r: &Reading, c: Command) -> bool
    ensures { result ≡ is_excess r.now c }
{
    match c {
        Command::Message(..) | Command::Plain(_) => MOST_REGIONS <= closed_count(r) as usize,
        Command::ClockTerm(..) | Command::DifferenceTerm(..) => {
            MOST_TERMS <= r.region.count as usize
        }
        _ => false,
    }
}

// R4: hot before the 50.
fn is_early(r: &Reading, c: Command) -> bool
    ensures { result ≡ is_early r.now c }
{
    matches!(c, Command::Hot) & !r.main
}

// R4: a mark before the 50.
fn is_resting(r: &Reading, c: Command) -> bool
    ensures { result ≡ is_resting r.now c }
{
    matches!(c, Command::Rest) & !r.main
}

// R8: a plain region of the opening half, of whose lines no earlier region touches one.
fn is_unanchored(r: &Reading, c: Command) -> bool
    ensures { result ≡ is_unanchored r.now c }
{
    match c {
        Command::Plain(l) => (!r.main | (r.chart.prechart == 0)) & ((l & r.touched) == 0),
        _ => false,
    }
}

// R4: at the 7F no 50 has come, or no region since.
fn is_mainless(r: &Reading, c: Command) -> bool
    ensures { result ≡ is_mainless r.now c }
{
    matches!(c, Command::End) & (!r.main | (closed_count(r) == r.chart.prechart))
}

// R4: a byte stands after the 7F.
fn is_trailing(more: bool, c: Command) -> bool
    ensures { result ≡ is_trailing more c }
{
    matches!(c, Command::End) & more
}

// The fault of the command `c` at `at`: the first that its checks find, in the order of R4.
fn fault_of(r: &Reading, at: usize, next: usize, more: bool, c: Command) -> Option<Fault>
    ensures { result ≡ fault_of r.now at next more c }
{
    when(is_misplaced(r, c), Refusal::Misplaced, at)
        .or(closes(r, c))
        .or(when(is_outside(&r.chart, c), Refusal::Outside, at))
        .or(when(is_excess(r, c), Refusal::Excess, at))
        .or(when(is_early(r, c), Refusal::Early, at))
        .or(when(is_resting(r, c), Refusal::RestInPrechart, at))
        .or(when(is_unanchored(r, c), Refusal::Unanchored, at))
        .or(when(is_mainless(r, c), Refusal::Mainless, at))
        .or(when(is_trailing(more, c), Refusal::Trailing, next))
}

// 10: the heading.
fn with_heading(r: &Reading, lines: u8, clocks: u8) -> Reading
    ensures { result ≡ with_heading r.now lines clocks }
{
    Reading {
        headed: true,
        chart: Chart {
            lines,
            clocks,
            ..r.chart
        },
        ..*r
    }
}

// 20, 21: the region last started is closed, and another starts.
fn begun(r: &Reading, at: usize, event: Event) -> Reading
    ensures { result ≡ begun_with r.now at event }
{
    let region = Region {
        event,
        ..model::zero_region()
    };
    Reading {
        started: true,
        start: at,
        touched: r.touched | model::touched(event),
        region,
        chart: close(r),
        ..*r
    }
}

fn with_region(r: &Reading, region: Region) -> Reading
    ensures { result ≡ with_region r.now region }
{
    Reading { region, ..*r }
}

// A relation, by its code from 0 to 4. No TryFrom, since its definition takes every larger byte for the last relation:
// those who read the byte test it apart.
pub fn relation_of(b: u8) -> Relation
    ensures { result ≡ relation_of b }
{
    match b {
        0 => Relation::Less,
        1 => Relation::AtMost,
        2 => Relation::Equal,
        3 => Relation::AtLeast,
        _ => Relation::More,
    }
}

// 30, 31: a term.
fn with_term(r: &Reading, left: Left, relation: u8, n: u32) -> Reading
    ensures { result ≡ with_term r.now left relation n }
{
    let mut region = r.region;
    let count = r.region.count;
    if (count as usize) < MOST_TERMS {
        region.terms[count as usize] = Term {
            left,
            relation: relation_of(relation),
            n,
        };
        region.count = count + 1;
    }
    with_region(r, region)
}

// 32: the condition is hot. This and the next two are three, since each sets another field.
fn with_hot(r: &Reading) -> Reading
    ensures { result ≡ with_hot r.now }
{
    let hot = Region {
        hot: true,
        ..r.region
    };
    with_region(r, hot)
}

// 33: the region is marked as a place to rest.
fn with_rest(r: &Reading) -> Reading
    ensures { result ≡ with_rest r.now }
{
    let marked = Region {
        rest: true,
        ..r.region
    };
    with_region(r, marked)
}

// 40: resets.
fn with_resets(r: &Reading, resets: u8) -> Reading
    ensures { result ≡ with_resets r.now resets }
{
    let resetting = Region { resets, ..r.region };
    with_region(r, resetting)
}

// The region last started is closed, and no other starts.
fn with_chart(r: &Reading, main: bool, chart: Chart) -> Reading
    ensures { result ≡ with_chart r.now main chart }
{
    Reading {
        main,
        started: false,
        chart,
        ..*r
    }
}

// 50: the main chart starts.
fn with_main(r: &Reading) -> Reading
    ensures { result ≡ with_main r.now }
{
    let mut chart = close(r);
    chart.prechart = chart.count;
    with_chart(r, true, chart)
}

// What a command does if no check refuses it.
fn applied(r: &Reading, at: usize, c: Command) -> Reading
    ensures { result ≡ applied r.now at c }
{
    match c {
        Command::Heading(lines, clocks) => with_heading(r, lines, clocks),
        Command::Message(source, destination, label) => {
            let message = Message {
                source,
                destination,
                label,
            };
            begun(r, at, Event::Message(message))
        }
        Command::Plain(lines) => begun(r, at, Event::Plain(lines)),
        Command::ClockTerm(k, e, n) => with_term(r, Left::Clock(k), e, n),
        Command::DifferenceTerm(a, b, e, n) => with_term(r, Left::Difference(a, b), e, n),
        Command::Hot => with_hot(r),
        Command::Rest => with_rest(r),
        Command::Resets(clocks) => with_resets(r, clocks),
        Command::Main => with_main(r),
        Command::End => with_chart(r, r.main, close(r)),
    }
}

// One command at `at`; `next` is the offset just after it, and `more` says whether bytes follow.
pub fn take(r: &Reading, at: usize, next: usize, more: bool, c: Command) -> Result<Step, Fault>
    ensures { result ≡ step_of r.now at next more c }
{
    if let Some(fault) = fault_of(r, at, next, more, c) {
        return Err(fault);
    }
    Ok(Step {
        reading: applied(r, at, c),
        next: if matches!(c, Command::End) {
            None
        } else {
            Some(next)
        },
    })
}
