// What is promised of the panel keys and of an interruption entry. No code: see specs/.
#![tactic(auto)]
