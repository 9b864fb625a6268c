// How the operations that were asked for later stand to the ones before. What is claimed of each alone is in
// `break_claims`, `preview_claims` and `save_claims`.
#![tactic(auto)]

ghost use Rattle.request_claims.specs.Requests.{Requests};

// Carries the claims.
pub fn requests()
    ensures { Requests }
{}
