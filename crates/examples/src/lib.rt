// The examples of section X by computation, from their bytes. There is no function here: `claims` has them among its
// claims.

#![tactic(auto)]
