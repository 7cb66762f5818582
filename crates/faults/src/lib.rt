// The faults of the table and of the game file. Each holds the fault of the layer below whole.
#![tactic(auto)]

pub mod file;
pub mod table;
