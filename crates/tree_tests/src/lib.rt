//! Tests of trees, of what is found in them and over them, and of how it is written: zones, saliencies, minima, watersheds, forests,
//! attributes, extinctions, component trees, least cuts and contours; the lines, labels and pictures of reports.
#![tactic(auto)]

#[cfg(test)]
mod attributes_tests;
#[cfg(test)]
mod component_tree_tests;
#[cfg(test)]
mod contour_map_tests;
#[cfg(test)]
mod energy_cut_tests;
#[cfg(test)]
mod energy_cut_worked;
#[cfg(test)]
mod extinction_tests;
#[cfg(test)]
mod forest_witness_tests;
#[cfg(test)]
mod graph_hierarchy_tests;
#[cfg(test)]
mod graphs;
#[cfg(test)]
mod label_writer_tests;
#[cfg(test)]
mod partition_tree_tests;
#[cfg(test)]
mod quasi_flat_zones_tests;
#[cfg(test)]
mod report_lines_tests;
#[cfg(test)]
mod saliency_tests;
#[cfg(test)]
mod watershed_cut_worked;
