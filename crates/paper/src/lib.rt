// The second demand, over an abstract chart. Its one function carries the theorem in its contract.
#![tactic(auto)]

ghost use Rattle.rounds.specs.Chart.{Chart, Accepted};
ghost use Rattle.paper.specs.Demand2.{Demand2};

// Of every accepted chart the second demand is true.
pub fn demand_2()
    ensures { (C : Chart) → Accepted C → Demand2 C }
{}
