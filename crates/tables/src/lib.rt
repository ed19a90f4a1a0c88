// Records, rows and versions: what the calls do to the tables, and what they read in them.
#![tactic(auto)]

pub mod records;
pub mod rows;
pub mod versions;
