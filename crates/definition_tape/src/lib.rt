// The definition of the load tape: its layout, its judge, what it loads, its first remark, the tape of a machine. No function: see specs/.
#![tactic(auto)]

// The bytes of the longest tape.
pub const MOST_BYTES: usize = 65536;
