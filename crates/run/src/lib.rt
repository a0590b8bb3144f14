// Running a sheet on a table: its commands are performed one after another, and what is refused is noted.
#![tactic(auto)]

pub mod ended; // How a run ended.
pub mod rolls; // The ledger and the notes that a run writes to.
pub mod running; // The run itself.
