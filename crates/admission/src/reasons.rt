// The reasons for which document 01 refuses a command, an opening or a store.
ghost use Rattle.std.specs.Prelude.{◌≡◌};
ghost use Rattle.admission.specs.Reasons.{reason_number};
ghost use Rattle.metadata.specs.declared.Answer.TheVariants.{InvalidCommand};

use metadata::Answer;

#[derive(Clone, Copy, PartialEq, Eq, Debug)]
pub enum Reason {
    // An id in use is zero.
    ZeroId,
    // Too short or too long, a byte that is not allowed, or padding that is not zero.
    Text,
    // Two endpoints of a node are equal.
    EqualEndpoints,
    // A storage class is empty or all spaces.
    BlankClass,
    // A lifecycle, a role or a partition kind that there is not.
    UnknownVariant,
    Partition,
    Replicas,
    Minima,
    Leaders,
    Opening,
    UnsoundStore,
}

impl Reason {
    // Document 01's number of a reason; 11 is none of them. `number` says which number that is, `u8::from` would not.
    pub fn number(self) -> u8
        ensures { result ≡ reason_number self }
    {
        match self {
            Reason::ZeroId => 1,
            Reason::Text => 2,
            Reason::EqualEndpoints => 3,
            Reason::BlankClass => 4,
            Reason::UnknownVariant => 5,
            Reason::Partition => 6,
            Reason::Replicas => 7,
            Reason::Minima => 8,
            Reason::Leaders => 9,
            Reason::Opening => 10,
            Reason::UnsoundStore => 12,
        }
    }
}

impl From<Reason> for Answer {
    ghost from_gives = { λ r a. a ≡ InvalidCommand (reason_number r) };

    fn from(r: Reason) -> Answer {
        Answer::InvalidCommand(r.number())
    }
}
