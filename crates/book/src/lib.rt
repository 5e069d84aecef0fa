// The list book: what every call on a pool means, over plain lists of entries.
#![tactic(auto)]

pub mod laws;
pub mod refusal;
pub mod reserve;
pub mod sorted;
#[cfg(test)]
mod tests;
