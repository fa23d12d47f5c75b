// The definition of cycle, run, refusals and panel keys. No code: see specs/.
#![tactic(auto)]
