// Lists that grow at their end, tests over the numbers below a bound, tables, and their laws. There is no function
// here: the crates above cite the definitions and the laws.

#![tactic(auto)]
