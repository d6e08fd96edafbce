// The calls' inner work for measuring: each function checks the table once and then does the work 1 + `times` times. No part of the server.
// All numbers are on the ruler, as inside the server, and a search starts from another record each time, so that no run is spared.
//
// `Fit t.now` stands in the contracts: a struct that holds the table with that fact was tried, and a ghost field's fact has to be a proposition, which
// `Forms` is not found to be.
#![tactic(auto)]

pub mod answer;
mod cell;
mod edits;
mod entry;
mod enumerate;
mod find;
mod neighbours;
mod often;
mod reports;
mod save;
mod search;
