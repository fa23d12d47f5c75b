// What is promised of the C calls. No code: see specs/.
#![tactic(auto)]
