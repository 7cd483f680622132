// The ops of entries, and the codes that stand for them.
ghost use Rattle.std.specs.Prelude.{◌≡◌};
ghost use Rattle.refusals.specs.declared.refusal.Refusal.TheVariants.{OutOfRange};
ghost use Rattle.entries.specs.Ops.{code_of, Decodes};

use refusals::Refusal;

/// How an entry makes its rule. The number is the code that stands for the op in a rule file.
#[derive(Clone, Copy, Debug, PartialEq, Eq)]
pub enum Op {
    Carry = 0,
    Product = 1,
    Either = 2,
    Selection = 3,
    Projection = 4,
    Complement = 5,
    None = 6,
}

impl Op {
    /// The code that stands for the op in a rule file.
    pub fn code(self) -> u8
        ensures { result ≡ code_of self }
    {
        self as u8
    }
}

/// A code that stands for no op.
#[derive(Clone, Copy, Debug, PartialEq, Eq)]
pub struct UnknownOp(pub u8);

impl TryFrom<u8> for Op {
    type Error = UnknownOp;

    ghost try_from_gives = { Decodes };

    fn try_from(code: u8) -> Result<Op, UnknownOp> {
        match code {
            0 => Ok(Op::Carry),
            1 => Ok(Op::Product),
            2 => Ok(Op::Either),
            3 => Ok(Op::Selection),
            4 => Ok(Op::Projection),
            5 => Ok(Op::Complement),
            6 => Ok(Op::None),
            _ => Err(UnknownOp(code)),
        }
    }
}

impl From<UnknownOp> for Refusal {
    ghost from_gives = { λ _ refusal. refusal ≡ OutOfRange };

    fn from(_unknown: UnknownOp) -> Refusal {
        Refusal::OutOfRange
    }
}
