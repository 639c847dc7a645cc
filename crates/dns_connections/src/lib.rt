//! The connections of a network, whose calls are told: what each peer was handed, took and sent, why each connection ended, and that none is
//! forgotten.
#![tactic(auto)]

mod accepting;
mod crowd;
mod fates;
mod fault;
mod link;
mod links;
mod moments;
mod owed;
mod places;
mod stage;

pub use crowd::Crowd;
pub use places::OpenPlaces;
