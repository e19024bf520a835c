//! Tests of the program as its callers see it: command lines that are worked out, requests, reports and whole runs. It has no
//! code of its own.
#![tactic(auto)]

#[cfg(test)]
mod contour_lines;
#[cfg(test)]
mod contour_run_tests;
#[cfg(test)]
mod tests;
#[cfg(test)]
mod worked;
