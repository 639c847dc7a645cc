//! A book that is served over listeners, each of whose workers serves one connection after another: the library's top call [`run::run`].
#![tactic(auto)]

mod ports;
pub mod run;
