// Witnesses: rounds, rows, steps and feeds that are written out and meet the definitions of the theory.
#![tactic(auto)]

ghost use Rattle.witness_rounds.specs.Cases.{Cases};
ghost use Rattle.witness_rounds.specs.Witnesses.{Witnesses};

// An instance of every case of the first demand's claims.
pub fn cases()
    ensures { Cases }
{}

// The page of witnesses.
pub fn rounds()
    ensures { Witnesses }
{}
