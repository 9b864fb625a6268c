// J13: whether the main chart may rest where it stands, by the marks of its regions.
#![tactic(auto)]

ghost use Rattle.std.specs.Prelude.{◌≡◌, true, ◌↔◌, ◌≤◌};
ghost use Rattle.bitset.specs.Set.{contains};
ghost use Rattle.model.specs.Chart.{most_lines, most_regions};
ghost use Rattle.resting.specs.Rest.{rests, RestsExactly};
ghost use Rattle.resting.specs.Lines.{LinesBelow, OneMore};

use model::Chart;

// The lines that count, and the cold ones, as sets.
#[derive(Clone, Copy)]
pub struct Lines {
    pub counting: u32,
    pub cold: u32,
}

impl Lines {
    // One region more, the last so far on the lines that it touches.
    fn add(&mut self, touched: u32, fired: bool, rest: bool)
        ensures { OneMore self.old touched fired rest self.new }
    {
        if !fired {
            self.counting = bitset::join(self.counting, touched);
        } else if rest {
            self.cold = bitset::join(self.cold, touched);
        } else {
            self.cold &= bitset::others(touched);
        }
    }
}

// The lines of the whole main chart.
fn lines_of(c: Chart, fired: u32) -> Lines
    requires { (c.prechart ≤ c.count) × (c.count ≤ most_regions) }
    ensures { LinesBelow c (contains fired) c.count result }
{
    let mut l = Lines {
        counting: 0,
        cold: 0,
    };
    for i in usize::from(c.prechart)..usize::from(c.count) {
        let g = &c.regions[i];
        let touched = u32::from(model::touched(g.event));
        l.add(touched, bitset::member(fired, i as u32), g.rest);
    }
    l
}

// Every line that has a main region which is not fired is cold.
pub fn rests(c: Chart, fired: u32) -> bool
    requires { (c.lines ≤ most_lines) × (c.prechart ≤ c.count) × (c.count ≤ most_regions) }
    ensures test { result ≡ rests c (contains fired) }
    ensures exactly { RestsExactly c (contains fired) }
{
    let l = lines_of(c, fired);
    let mut ok = true;
    for k in 0..u32::from(c.lines) {
        ok &= !bitset::member(l.counting, k) | bitset::member(l.cold, k);
    }
    ok
}
