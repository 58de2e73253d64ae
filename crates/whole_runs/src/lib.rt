//! Whole runs of small setups, as tests: each event of a run is applied, and events that are no
//! step are refused. Boards take turns. Traces are replayed. Boards race. Each read and each write
//! of a command fails in turn.
#![tactic(auto)]

#[cfg(test)]
mod applied;
#[cfg(test)]
mod commands;
#[cfg(test)]
mod failures;
#[cfg(test)]
mod gates;
#[cfg(test)]
mod machines;
#[cfg(test)]
mod races;
#[cfg(test)]
mod traces;
#[cfg(test)]
mod turns;
