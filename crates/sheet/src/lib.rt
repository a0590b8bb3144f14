// The sheet of commands: what its bytes mean at a place, and the bytes of a command.
#![tactic(auto)]

// The reading place, and the guard that puts it back.
pub mod place;
// The command at a place of a sheet.
pub mod reading;
// A sheet and its place together.
pub mod reader;
// A command's bytes at a place of a buffer.
pub mod writing;
// The kinds of command.
mod opcode;
// The operands behind a first byte.
mod operands;
