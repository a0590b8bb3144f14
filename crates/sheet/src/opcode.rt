// The kinds of command, and the byte with which a command of each kind begins.
ghost use Rattle.sheet.specs.Opcodes.{Decodes};

use refusals::Cause;

#[derive(Clone, Copy)]
pub(crate) enum Opcode {
    Open = 0x54,
    Buy = 0x49,
    Cash = 0x43,
    Fill = 0x46,
    Draw = 0x57,
    Bet = 0x42,
    Deal = 0x44,
    Raise = 0x52,
    Leave = 0x4C,
    Settle = 0x53,
    Void = 0x56,
}

impl TryFrom<u8> for Opcode {
    type Error = Cause;

    ghost try_from_gives = { Decodes };

    fn try_from(first: u8) -> Result<Self, Cause> {
        match first {
            0x54 => Ok(Opcode::Open),
            0x49 => Ok(Opcode::Buy),
            0x43 => Ok(Opcode::Cash),
            0x46 => Ok(Opcode::Fill),
            0x57 => Ok(Opcode::Draw),
            0x42 => Ok(Opcode::Bet),
            0x44 => Ok(Opcode::Deal),
            0x52 => Ok(Opcode::Raise),
            0x4C => Ok(Opcode::Leave),
            0x53 => Ok(Opcode::Settle),
            0x56 => Ok(Opcode::Void),
            _ => Err(Cause::UnknownByte),
        }
    }
}
