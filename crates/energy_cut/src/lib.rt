//! Cuts of a tree of least energy.
#![tactic(auto)]

mod choosing;
mod cuts;
mod energies;
mod laws;
mod report;

pub use cuts::{EnergyCut, least_cut};
pub use energies::node_energies;
pub use laws::{
    cuts_are_listed, energies_fit, least_cut_is_one, nodes_have_leaves, regions_by_nodes,
};
pub use report::{energy_pieces, write_energy};
