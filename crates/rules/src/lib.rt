#![tactic(auto)]
// The numbers of the table and the kinds of operations, as types.
ghost use Rattle.std.specs.Prelude.{◌≡◌};
ghost use Rattle.rules.specs.Numbers.{code, kind_code, Decodes};

// Why a call refuses. Each has its number in the table.
#[derive(Clone, Copy, Debug, PartialEq, Eq)]
pub enum Refusal {
    Shape = 1,
    TooMany = 2,
    Damaged = 3,
    InvalidOperation = 4,
    OutOfOrderOperation = 5,
    Full = 6,
    OperationNotFound = 7,
    NotInitialized = 8,
    NoRoom = 9,
    Clash = 10,
    BadLog = 11,
}

impl Refusal {
    // The number in the table.
    pub fn number(self) -> u8
        ensures { result ≡ code self }
    {
        self as u8
    }
}

// What an operation does.
#[derive(Clone, Copy, Debug, PartialEq, Eq)]
pub enum Kind {
    Add = 0,
    Remove = 1,
    Update = 2,
}

impl TryFrom<u8> for Kind {
    type Error = Refusal;

    ghost try_from_gives = { Decodes };

    fn try_from(code: u8) -> Result<Self, Refusal> {
        match code {
            0 => Ok(Kind::Add),
            1 => Ok(Kind::Remove),
            2 => Ok(Kind::Update),
            _ => Err(Refusal::Shape),
        }
    }
}

impl From<Kind> for u8 {
    ghost from_gives = { λ k c. c ≡ kind_code k };

    fn from(kind: Kind) -> u8 {
        kind as u8
    }
}
