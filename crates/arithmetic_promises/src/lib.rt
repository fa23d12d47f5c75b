// What is promised of the arithmetic. No code: see specs/.
#![tactic(auto)]
