// A chart value read from its image of 1,348 bytes.
#![tactic(auto)]

ghost use Rattle.std.specs.Prelude.{◌≡◌, ◌+◌, ◌≤◌};
ghost use Rattle.chart_image.specs.ChartImage.{chart_size, left_of, term_in, term_fits, event_in, region_in, head_fits};
ghost use Rattle.chart_image.specs.ChartImage.{region_fits, regions_in, is_image, chart_value_of};

use model::{Chart, Event, Left, MOST_REGIONS, Message, Region, Term};

// The bytes of a chart's image: the heading, then the regions.
const CHART_SIZE: usize = 1348;

const HEADING_SIZE: usize = 4;

const REGION_SIZE: usize = 42;

// The largest kind, and the largest code of a relation.
const MOST_KIND: u8 = 1;

const MOST_RELATION: u8 = 4;

// A term's left side, by its kind.
fn left_of(kind: u8, first: u8, second: u8) -> Left
    ensures { result ≡ left_of kind first second }
{
    if kind == 0 {
        return Left::Clock(first);
    }
    Left::Difference(first, second)
}

// The term whose eight bytes start at an offset.
fn term_at(s: &[u8], at: usize) -> Term
    requires { at ≤ chart_size }
    ensures { result ≡ term_in s.now at }
{
    let left = left_of(
        wire::byte_at(s, at),
        wire::byte_at(s, at + 1),
        wire::byte_at(s, at + 2),
    );
    let relation = chart_step::relation_of(wire::byte_at(s, at + 3));
    Term {
        left,
        relation,
        n: wire::word32_at(s, at + 4),
    }
}

// Each byte of the term has a meaning.
fn term_fits(s: &[u8], at: usize) -> bool
    requires { at ≤ chart_size }
    ensures { result ≡ term_fits s.now at }
{
    let kind = wire::byte_at(s, at);
    let whole = (kind == 1) | (wire::byte_at(s, at + 2) == 0);
    (kind <= MOST_KIND) & ((wire::byte_at(s, at + 3) <= MOST_RELATION) & whole)
}

// What a region waits for, by its kind.
fn event_at(s: &[u8], at: usize) -> Event
    requires { at ≤ chart_size }
    ensures { result ≡ event_in s.now at }
{
    if wire::byte_at(s, at) == 0 {
        return Event::Plain(wire::word16_at(s, at + 1));
    }
    let message = Message {
        source: wire::byte_at(s, at + 1),
        destination: wire::byte_at(s, at + 2),
        label: wire::word16_at(s, at + 3),
    };
    Event::Message(message)
}

// The region whose 42 bytes start at an offset.
fn region_at(s: &[u8], at: usize) -> Region
    requires { at + 42 ≤ chart_size }
    ensures { result ≡ region_in s.now at }
{
    let event = event_at(s, at);
    let terms = [
        term_at(s, at + 10),
        term_at(s, at + 18),
        term_at(s, at + 26),
        term_at(s, at + 34),
    ];
    Region {
        event,
        terms,
        count: wire::byte_at(s, at + 7),
        hot: wire::byte_at(s, at + 5) == 1,
        resets: wire::byte_at(s, at + 6),
        rest: wire::byte_at(s, at + 8) == 1,
    }
}

// Each byte before the region's terms has a meaning.
fn head_fits(s: &[u8], at: usize) -> bool
    requires { at ≤ chart_size }
    ensures { result ≡ head_fits s.now at }
{
    let kind = wire::byte_at(s, at);
    let whole = (kind == 1) | (wire::word16_at(s, at + 3) == 0);
    let hot = wire::byte_at(s, at + 5) <= 1;
    let rest = wire::byte_at(s, at + 8) <= 1;
    let empty = wire::byte_at(s, at + 9) == 0;
    (kind <= MOST_KIND) & (hot & (rest & (empty & whole)))
}

// Each byte of the region has a meaning.
fn region_fits(s: &[u8], at: usize) -> bool
    requires { at + 42 ≤ chart_size }
    ensures { result ≡ region_fits s.now at }
{
    let first = term_fits(s, at + 10);
    let second = term_fits(s, at + 18);
    let third = term_fits(s, at + 26);
    let fourth = term_fits(s, at + 34);
    head_fits(s, at) & (first & (second & (third & fourth)))
}

// Whether the bytes are an image.
fn is_image(s: &[u8]) -> bool
    ensures { result ≡ is_image s.now }
{
    if s.len() != CHART_SIZE {
        return false;
    }
    let mut ok = true;
    for i in 0..MOST_REGIONS {
        ok &= region_fits(s, HEADING_SIZE + i * REGION_SIZE);
    }
    ok
}

// The 32 regions.
fn regions_at(s: &[u8]) -> [Region; MOST_REGIONS]
    ensures { result ≡ regions_in s.now }
{
    let mut regions = [model::zero_region(); MOST_REGIONS];
    for i in 0..MOST_REGIONS {
        regions[i] = region_at(s, HEADING_SIZE + i * REGION_SIZE);
    }
    regions
}

// The chart value in an image; zeros where the bytes are no image.
pub fn chart_at(s: &[u8]) -> Chart
    ensures value { result ≡ chart_value_of s.now }
    ensures unchanged { s.exit.now ≡ s.entry.now }
{
    if !is_image(s) {
        return model::zero_chart();
    }
    let regions = regions_at(s);
    Chart {
        lines: wire::byte_at(s, 0),
        clocks: wire::byte_at(s, 1),
        prechart: wire::byte_at(s, 2),
        count: wire::byte_at(s, 3),
        regions,
    }
}
