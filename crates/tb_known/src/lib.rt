//! The laws that an evaluator of a phase knows the code of processes in which nothing is wrong.
//!
//! `Faultless` shows by induction on statements that those without faults pass the tests of a bench, and `Known` that nodes which
//! pass are known to an evaluator.
#![tactic(auto)]

mod laws;

pub use laws::{
    faultless_assigns_are_carried_out, faultless_processes_pass, passing_code_is_known, waits_pass,
};
