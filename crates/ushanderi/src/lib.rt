// The server: the calls that a host makes. `Fit t.now` stands as a clause for the reason that seek's src/lib.rt gives.
// Every table and every number is answered, and no call asks for anything beforehand.
#![tactic(auto)]

pub mod answer;
pub mod editing;
mod entry;
pub mod host;
pub mod layouts;
pub mod plane;
pub mod reading;
pub mod reports;
