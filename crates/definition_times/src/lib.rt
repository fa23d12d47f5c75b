// The definition of execution times and of the timer. No code: see specs/.
#![tactic(auto)]
