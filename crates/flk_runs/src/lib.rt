//! Tests of whole runs: `run` of `flk_top` over files in memory. Nothing here runs but in tests.
#![tactic(auto)]

#[cfg(test)]
mod blocks;
#[cfg(test)]
mod commands;
#[cfg(test)]
mod generate;
#[cfg(test)]
mod hostile;
#[cfg(test)]
mod report;
#[cfg(test)]
mod streaming;
#[cfg(test)]
mod width;
