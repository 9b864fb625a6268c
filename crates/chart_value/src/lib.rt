// M4: whether a chart value is what some accepted bytes are read as, or is refused with 20.
#![tactic(auto)]

ghost use Rattle.std.specs.Prelude.{◌≡◌, true, ◌↔◌};
ghost use Rattle.chart_reader.specs.Read.{read_chart};
ghost use Rattle.chart_reader.specs.Said.{accepted_as};
ghost use Rattle.chart_value.specs.WellFormed.{left_fits, term_placed};
ghost use Rattle.chart_value.specs.WellFormed.{terms_fit, event_fits, region_fits};
ghost use Rattle.chart_value.specs.WellFormed.{region_placed, heading_fits, region_counts_fit, well_formed};
ghost use Rattle.chart_value.specs.Writer.{chart_bytes};
ghost use Rattle.chart_value.specs.Given.{Given};
ghost use Rattle.chart_value.specs.Guards.{NeverFire};
ghost use Rattle.chart_value.specs.View.{Shown, CodesTell};
ghost use Rattle.chart_value.specs.Marks.{MarksApart};

mod accepted;

pub use accepted::{AcceptedChart, NotAChart};
use model::{
    Chart, Event, LEAST_LINES, Left, MOST_CLOCKS, MOST_LINES, MOST_REGIONS, MOST_TERMS, Region,
    Term,
};

fn left_fits(clocks: u8, l: Left) -> bool
    ensures { result ≡ left_fits clocks l }
{
    match l {
        Left::Clock(k) => k < clocks,
        Left::Difference(a, b) => (a < clocks) & ((b < clocks) & (a != b)),
    }
}

// Term t at place j: its clocks are the chart's, or it is zeros.
fn term_placed(clocks: u8, count: usize, j: usize, t: Term) -> bool
    ensures { result ≡ term_placed clocks count j t }
{
    if j < count {
        left_fits(clocks, t.left)
    } else {
        t == model::zero_term()
    }
}

fn terms_fit(clocks: u8, g: &Region) -> bool
    ensures { result ≡ terms_fit clocks g.now }
{
    let count = usize::from(g.count);
    let mut ok = true;
    for (j, t) in g.terms.iter().enumerate() {
        ok &= term_placed(clocks, count, j, *t);
    }
    (count <= MOST_TERMS) & ok
}

fn event_fits(lines: u8, opening: bool, before: u16, e: Event) -> bool
    ensures { result ≡ event_fits lines opening before e }
{
    match e {
        Event::Message(m) => {
            (m.source < lines) & ((m.destination < lines) & (m.source != m.destination))
        }
        Event::Plain(l) => {
            let shares = (l & before) != 0;
            (l != 0) & (bitset::within(u32::from(lines), u32::from(l)) & (!opening | shares))
        }
    }
}

fn region_fits(c: &Chart, main: bool, opening: bool, before: u16, g: &Region) -> bool
    ensures { result ≡ region_fits c.now.lines c.now.clocks main opening before g.now }
{
    let event = event_fits(c.lines, opening, before, g.event);
    let terms = terms_fit(c.clocks, g);
    let resets = bitset::within(u32::from(c.clocks), u32::from(g.resets));
    let bare = model::is_bare(*g);
    let hot = !g.hot | (main & (g.count != 0));
    let rest = !g.rest | main;
    event & (terms & (resets & (!bare & (hot & rest))))
}

// Region g at place i, with the lines touched before it: used and fitting, or zeros.
fn region_placed(c: &Chart, i: usize, before: u16, g: Region) -> bool
    ensures { result ≡ region_placed c.now.lines c.now.clocks c.now.prechart c.now.count i before g }
{
    if i < usize::from(c.count) {
        let main = usize::from(c.prechart) <= i;
        region_fits(c, main, !main | (c.prechart == 0), before, &g)
    } else {
        g == model::zero_region()
    }
}

fn heading_fits(c: &Chart) -> bool
    ensures { result ≡ heading_fits c.now }
{
    (LEAST_LINES <= c.lines) & ((c.lines <= MOST_LINES) & (c.clocks <= MOST_CLOCKS))
}

fn region_counts_fit(c: &Chart) -> bool
    ensures { result ≡ region_counts_fit c.now }
{
    (c.prechart < c.count) & (usize::from(c.count) <= MOST_REGIONS)
}

// Whether some accepted bytes are read as the chart: then those that the writer lays out are, too.
pub fn well_formed(c: Chart) -> bool
    ensures { (result ≡ well_formed c)
        × ((result ≡ true) ↔ Given c)
        × ((result ≡ true) ↔ (read_chart (chart_bytes c) ≡ accepted_as c)) }
{
    let mut ok = true;
    let mut before = 0;
    for (i, g) in c.regions.iter().enumerate() {
        ok &= region_placed(&c, i, before, *g);
        before |= model::touched(g.event);
    }
    heading_fits(&c) & (region_counts_fit(&c) & ok)
}

// What is true of every chart that accepted bytes are read as.
pub fn accepted_charts()
    ensures shown { (c : Chart) → Given c → Shown c }
    ensures codes { CodesTell }
    ensures marks { MarksApart }
{}

// The guards of the reader's definition.
pub fn reader_guards()
    ensures { NeverFire }
{}
