//! What the phases make of registers and memory is what the machine does.
#![tactic(auto)]
