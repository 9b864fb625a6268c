// A chart compiled into numbers for stepping: it shows the same abstract chart as the chart's value.
#![tactic(auto)]

ghost use Rattle.std.specs.Prelude.{◌≡◌, cond, ◌<◌, ◌≤◌};
ghost use Rattle.bitset.specs.Set.{inserted};
ghost use Rattle.model.specs.Chart.{most_regions, most_terms};
ghost use Rattle.chart_value.specs.View.{code_of, key_of};
ghost use Rattle.plan.specs.Words.{first_clock, second_clock, word_of, word_at};
ghost use Rattle.plan.specs.Slots.{slot_count, slot_of, Slotted};
ghost use Rattle.plan.specs.Plan.{Compiles};
ghost use Rattle.chart_value.specs.Records.{record_code};

use chart_value::AcceptedChart;
use layout::{Head, NUMBER_PLACE, Plan, ROW_PLACE, SECOND_PLACE, TERM_PLACES};
use model::{Event, Left, MOST_CLOCKS, MOST_REGIONS, MOST_TERMS, Message, Record, Region, Term};

// A message's code: one more than label, source and destination at their places.
pub const LABEL_PLACE: u64 = 0x1_0000;

const SOURCE_PLACE: u64 = 0x100;

// The second clock of a term of one clock.
const NO_CLOCK: u64 = MOST_CLOCKS as u64;

// A message's regions are found by its slot: the highest byte of its code's low word times SPREAD.
pub const SLOTS: usize = 256;

const SPREAD: u64 = 0x9E37_79B1;

const LOW_WORD: u64 = 0x1_0000_0000;

const HIGHEST_BYTE: u64 = 0x100_0000;

// One number for a message; it is never 0.
pub fn code_of(m: Message) -> u64
    ensures { result ≡ code_of m }
{
    u64::from(m.label) * LABEL_PLACE
        + u64::from(m.source) * SOURCE_PLACE
        + u64::from(m.destination)
        + 1
}

// The code of a record's message, 0 for a record of time. No Option<Message> for it and for
// key_of: that is three functions and definitions in place of these two, which the theory names.
pub fn record_code(r: Record) -> u64
    ensures { result ≡ record_code r }
{
    match r {
        Record::Message(m, _) => code_of(m),
        Record::Time(_) => 0,
    }
}

// The code of a region's message, 0 for a plain region: see record_code.
fn key_of(e: Event) -> u64
    ensures { result ≡ key_of e }
{
    match e {
        Event::Message(m) => code_of(m),
        Event::Plain(_) => 0,
    }
}

// The set; with i, if b holds.
fn insert_if(set: u32, i: usize, b: bool) -> u32
    requires { i < most_regions }
    ensures { result ≡ cond b (inserted set i) set }
{
    if b {
        bitset::insert(set, i as u32)
    } else {
        set
    }
}

// The clock of a term, or the first of two. Each clock by itself and no pair of them: a word's definition names each.
fn first_clock(l: Left) -> u64
    ensures value { result ≡ first_clock l }
    ensures bound { result < 256 }
{
    match l {
        Left::Clock(k) => u64::from(k),
        Left::Difference(a, _) => u64::from(a),
    }
}

// The second clock of a term, or NO_CLOCK.
fn second_clock(l: Left) -> u64
    ensures value { result ≡ second_clock l }
    ensures bound { result < 256 }
{
    match l {
        Left::Clock(_) => NO_CLOCK,
        Left::Difference(_, b) => u64::from(b),
    }
}

// A term as one number.
fn word_of(t: Term) -> u64
    ensures { result ≡ word_of t }
{
    let high = condition::biased(t.n) * NUMBER_PLACE + condition::row_bits(t.relation) * ROW_PLACE;
    high + second_clock(t.left) * SECOND_PLACE + first_clock(t.left)
}

// The word of term j; 0 where there is no such term.
fn word_at(g: &Region, j: usize) -> u64
    requires { j < most_terms }
    ensures { result ≡ word_at g.now j }
{
    if j < usize::from(g.count) {
        word_of(g.terms[j])
    } else {
        0
    }
}

// The slot of a message's code.
pub fn slot_of(code: u64) -> usize
    ensures value { result ≡ slot_of code }
    ensures bound { result < slot_count }
{
    ((code % LOW_WORD * SPREAD) % LOW_WORD / HIGHEST_BYTE) as usize
}

// For each slot the set of the regions whose key has it.
pub fn slots_of(plan: &Plan) -> [u32; SLOTS]
    ensures { Slotted plan.now.head.count plan.now.keys result }
{
    let mut slots = [0u32; SLOTS];
    for i in 0..plan.head.count {
        let k = slot_of(plan.keys[i]);
        slots[k] = bitset::insert(slots[k], i as u32);
    }
    slots
}

// The chart as numbers, region by region; a region's terms have four places.
pub fn compile(accepted: &AcceptedChart) -> Plan
    ensures { Compiles accepted.now.chart result }
{
    let c = &accepted.chart;
    let count = usize::from(c.count);
    let mut plain: u32 = 0;
    let mut hot: u32 = 0;
    let mut keys = [0u64; MOST_REGIONS];
    let mut resets = [0u32; MOST_REGIONS];
    let mut terms = [0u64; TERM_PLACES];
    for i in 0..count {
        let g = &c.regions[i];
        plain = insert_if(plain, i, model::is_plain(g.event));
        hot = insert_if(hot, i, g.hot);
        keys[i] = key_of(g.event);
        resets[i] = u32::from(g.resets);
        for j in 0..MOST_TERMS {
            terms[i * MOST_TERMS + j] = word_at(g, j);
        }
    }
    let head = Head {
        count,
        prechart: usize::from(c.prechart),
        clocks: usize::from(c.clocks),
        plain,
        hot,
    };
    Plan {
        head,
        keys,
        above: order::above_sets(*c),
        resets,
        terms,
    }
}
