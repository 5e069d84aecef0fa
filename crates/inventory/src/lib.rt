// Inventories of a tape library: what their lines say, and the report of the cartridges that are overdue for a check.
#![tactic(auto)]

pub mod fault;
mod front;
pub mod line;
pub mod note;
pub mod report;
pub mod row;
pub mod show;
#[cfg(test)]
mod tests;
pub mod text;
mod words;
