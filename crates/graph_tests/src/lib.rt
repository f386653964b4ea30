//! Tests of graphs and of what is found on them alone, each by public calls.
//!
//! `graphs` has the lists of a graph and `readings` the ends of its clocks (`sync_graph`); `waiting_nodes` the order
//! in which nodes are taken (`frontier`); `insertions` arcs that are brought in (`earliest`); `distance_rows` rows
//! of a graph (`distances`); `kept_rows` rows that are kept and repaired (`repair`); `cells` what a cell tells and
//! `row_pools` rows that are lent (`row_pool`). `fixtures` has the graphs that several of them are over.
#![tactic(auto)]

#[cfg(test)]
mod cells;
#[cfg(test)]
mod distance_rows;
#[cfg(test)]
mod fixtures;
#[cfg(test)]
mod graphs;
#[cfg(test)]
mod insertions;
#[cfg(test)]
mod kept_rows;
#[cfg(test)]
mod readings;
#[cfg(test)]
mod row_pools;
#[cfg(test)]
mod waiting_nodes;
