// Entries as plain rows of numbers, each a kind. The laws hold for every row.
pub mod booking;
pub mod label;
pub mod slot;
