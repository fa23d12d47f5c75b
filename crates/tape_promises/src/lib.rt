// What is promised of load tapes. No code: see specs/.
#![tactic(auto)]
