// The definition of the machine: micro-operations, instructions, codes. No code: see specs/.
#![tactic(auto)]
