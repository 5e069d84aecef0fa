// The layer of links: cells with two links each, counted references, the ring from which cells are taken, and walks. It knows nothing of entries.
#![tactic(auto)]

pub mod cells;
pub mod holders;
pub mod laws;
pub mod link;
pub mod nodes;
pub mod ring;
#[cfg(test)]
mod tests;
pub mod walk;
