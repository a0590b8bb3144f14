// The books of a table: its tray, seats and stage, and every movement of chips between spaces, racks and tray.
#![tactic(auto)]

pub mod seat; // One seat: its rack, its spaces and its choice.
pub mod stage; // Whether the table is betting or dealt.
pub mod table_books; // The books themselves.
pub mod chips; // Lifted chips, and where they are placed.
pub mod serving; // Serving a seat at the end of a round.
