// What is promised of every run, and of several. No code: see specs/.
#![tactic(auto)]
