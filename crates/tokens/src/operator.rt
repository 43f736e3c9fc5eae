// The operators.
ghost use Rattle.std.specs.Prelude.{◌≡◌, ◌<◌};
ghost use Rattle.std.specs.Option.{ok_or};
ghost use Rattle.tokens.specs.Operators.{code_of, text_of, may_lengthen};
ghost use Rattle.tokens.specs.Table.{operator_of};

#[derive(Clone, Copy, Debug, PartialEq, Eq)]
pub enum Operator {
    Newline = 1,
    Amp = 2,
    AndIf = 3,
    Bar = 4,
    OrIf = 5,
    Semi = 6,
    DoubleSemi = 7,
    Open = 8,
    Close = 9,
    Less = 10,
    Great = 11,
    Here = 12,
    Append = 13,
    LessAmp = 14,
    GreatAmp = 15,
    LessGreat = 16,
    HereDash = 17,
    Clobber = 18,
}

impl Operator {
    // The operator's row in the table of operators: its code.
    pub fn row(self) -> usize
        ensures is { result ≡ code_of self }
        ensures below { result < 19 }
    {
        self as usize
    }

    // Stays: a text as it lies, which each printer writes in its own way.
    pub fn text(self) -> &'static str
        ensures { result.now ≡ text_of self }
    {
        match self {
            Operator::Newline => "\n",
            Operator::Amp => "&",
            Operator::AndIf => "&&",
            Operator::Bar => "|",
            Operator::OrIf => "||",
            Operator::Semi => ";",
            Operator::DoubleSemi => ";;",
            Operator::Open => "(",
            Operator::Close => ")",
            Operator::Less => "<",
            Operator::Great => ">",
            Operator::Here => "<<",
            Operator::Append => ">>",
            Operator::LessAmp => "<&",
            Operator::GreatAmp => ">&",
            Operator::LessGreat => "<>",
            Operator::HereDash => "<<-",
            Operator::Clobber => ">|",
        }
    }

    // Whether some byte makes a longer operator of it.
    pub fn may_lengthen(self) -> bool
        ensures { result ≡ may_lengthen self }
    {
        matches!(
            self,
            Operator::Amp
                | Operator::Bar
                | Operator::Semi
                | Operator::Less
                | Operator::Great
                | Operator::Here
        )
    }
}

// The operator's code.
impl From<Operator> for u8 {
    ghost from_gives = { λ operator code. code ≡ code_of operator };

    fn from(operator: Operator) -> u8 {
        operator as u8
    }
}

// A number that is no operator's code.
#[derive(Clone, Copy, Debug, PartialEq, Eq)]
pub struct UnknownOperator(pub u8);

// The operator of a code.
impl TryFrom<u8> for Operator {
    type Error = UnknownOperator;

    ghost try_from_gives = { λ code r. r ≡ ok_or (operator_of code) (record { 0 = code }) };

    fn try_from(code: u8) -> Result<Self, UnknownOperator> {
        match code {
            1 => Ok(Operator::Newline),
            2 => Ok(Operator::Amp),
            3 => Ok(Operator::AndIf),
            4 => Ok(Operator::Bar),
            5 => Ok(Operator::OrIf),
            6 => Ok(Operator::Semi),
            7 => Ok(Operator::DoubleSemi),
            8 => Ok(Operator::Open),
            9 => Ok(Operator::Close),
            10 => Ok(Operator::Less),
            11 => Ok(Operator::Great),
            12 => Ok(Operator::Here),
            13 => Ok(Operator::Append),
            14 => Ok(Operator::LessAmp),
            15 => Ok(Operator::GreatAmp),
            16 => Ok(Operator::LessGreat),
            17 => Ok(Operator::HereDash),
            18 => Ok(Operator::Clobber),
            _ => Err(UnknownOperator(code)),
        }
    }
}
