// What an answer names: a failure domain, a kind of table, a fault of a tape. Each has document 01's number; `number` says which number that is, `u8::from` would not,
// and stands at each of the three, since nothing asks for the number of any of them.
ghost use Rattle.metadata.specs.Kinds.{domain_number, fault_number, table_number};
ghost use Rattle.std.specs.Prelude.{◌≡◌};

// What keeps copies apart: each node has a label for it.
#[derive(Clone, Copy, PartialEq, Eq, Debug)]
pub enum Domain {
    Region,
    Zone,
    Rack,
}

impl Domain {
    pub fn number(self) -> u8
        ensures { result ≡ domain_number self }
    {
        match self {
            Domain::Region => 0,
            Domain::Zone => 1,
            Domain::Rack => 2,
        }
    }
}

// The tables that can be full. Tablets and their placements share the room and the number.
#[derive(Clone, Copy, PartialEq, Eq, Debug)]
pub enum TableKind {
    Nodes,
    Tablets,
    Retirements,
}

impl TableKind {
    pub fn number(self) -> u8
        ensures { result ≡ table_number self }
    {
        match self {
            TableKind::Nodes => 0,
            TableKind::Tablets => 1,
            TableKind::Retirements => 2,
        }
    }
}

// What is wrong with a tape: a byte that is no command, or a command that is cut short. Two faults of one rank, so no `Option` of one.
#[derive(Clone, Copy, PartialEq, Eq, Debug)]
pub enum TapeFault {
    Unknown,
    Cut,
}

impl TapeFault {
    pub fn number(self) -> u8
        ensures { result ≡ fault_number self }
    {
        match self {
            TapeFault::Unknown => 1,
            TapeFault::Cut => 2,
        }
    }
}
