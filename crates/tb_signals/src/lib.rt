//! The signals of a testbench: those that its module declares, hidden ones that stand for ports of its instance, and the value of
//! each before the first phase.
//!
//! The module of a testbench is opened by itself (`flat_scopes` lists what it declares and its items), and for each signal there
//! is a word, with which it starts. Each port of the instance gets a hidden signal, whose name no source can write; its
//! connection then is an assign. `flat_laws` says that the names of an opened module are those of signals; `Standing` of its
//! proofs carries this over to the words.
#![tactic(auto)]

mod laws;
mod module;
mod table;

pub use laws::opened_modules_stand;
pub use module::open_alone;
pub use table::Signals;
