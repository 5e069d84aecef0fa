// The kinds of entry that an ordered map can hold, and the types that carry a rule of their own.
#![tactic(auto)]

pub mod booking;
pub mod kind;
pub mod label;
mod not_a_label;
pub mod rows;
#[cfg(test)]
mod tests;
