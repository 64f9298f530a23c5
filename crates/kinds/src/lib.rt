// Document 01, "Links and telegrams": the input kinds by the paper's names, and the class of each.
// A class is named by its greatest value: a value above it is not of the class, and 0 is no class.
#![tactic(auto)]

ghost use Rattle.std.specs.Prelude.{◌≡◌};
ghost use Rattle.kinds.specs.Kinds.{class_of};
ghost use Rattle.kinds.specs.Numbers.{Names};

// In the order of their numbers, from 0 on.
#[derive(Clone, Copy)]
pub enum Kind {
    Wa,
    Ra,
    Fa,
    Fo,
    Mud,
    Stop,
    Ssud,
    Sapbp,
}

// A number that no kind has.
#[derive(Clone, Copy)]
pub struct UnknownKind(pub u8);

impl TryFrom<u8> for Kind {
    type Error = UnknownKind;

    ghost try_from_gives = { Names };

    fn try_from(number: u8) -> Result<Kind, UnknownKind> {
        match number {
            0 => Ok(Kind::Wa),
            1 => Ok(Kind::Ra),
            2 => Ok(Kind::Fa),
            3 => Ok(Kind::Fo),
            4 => Ok(Kind::Mud),
            5 => Ok(Kind::Stop),
            6 => Ok(Kind::Ssud),
            7 => Ok(Kind::Sapbp),
            _ => Err(UnknownKind(number)),
        }
    }
}

// The last kind that there is.
pub const LAST: Kind = Kind::Sapbp;

// A class is its greatest value and no enum, as `class_of` has it: a value is compared with it.
pub const ONE_BIT: u32 = 1;

pub const TWO_BITS: u32 = 3;

pub const ONE_BYTE: u32 = 255;

// FO is of two bits and SAPBP of one byte; every other kind is of one bit, and so is a number that no kind has. A number in
// 32 bits and no `Kind`: a table may hold any, and a loop over its words has one width.
#[tactic(auto, unfolding(crate::specs::Kinds::class_of))]
pub fn class_of_kind(kind: u32) -> u32
    ensures { result ≡ class_of kind }
{
    if kind == Kind::Fo as u32 {
        return TWO_BITS;
    }
    if kind == Kind::Sapbp as u32 {
        return ONE_BYTE;
    }
    ONE_BIT
}
