// The text of a bench sheet: reading what it asks for, and printing the answer.

#![tactic(auto)]

pub mod print;
pub mod read;
