//! The machine.
#![tactic(auto)]
