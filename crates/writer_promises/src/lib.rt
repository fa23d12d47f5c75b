// What is promised of the tapes that are written. No code: see specs/.
#![tactic(auto)]
