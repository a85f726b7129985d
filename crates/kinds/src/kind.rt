// The kinds of records of dossiers and models, with their numbers and their names.
ghost use Rattle.std.specs.Prelude.{◌≡◌};
ghost use Rattle.kinds.specs.Kinds.{HasNumber, sort_of, words_of, size_of, OfKind};

use records::record::Numbered;
use records::refusal::Refusal;

// What a record is counted as.
#[derive(Clone, Copy, PartialEq, Eq, Debug)]
pub enum Sort {
    Formula,
    Fact,
    Row,
    Unknown,
    WrongSize,
}

// A kind of record.
#[derive(Clone, Copy, PartialEq, Eq, Debug)]
pub enum Kind {
    Atom,
    Falsity,
    And,
    Or,
    Implies,
    Says,
    Controls,
    Ratified,
    Permitted,
    Labels,
    LeftFormula,
    RightFormula,
    Order,
    Arrow,
    Worlds,
    WorldsAbove,
    ArrowEnds,
    AtomRow,
    Place,
}

// A number that no kind has.
#[derive(Clone, Copy, PartialEq, Eq, Debug)]
pub struct UnknownKind(pub u16);

impl Kind {
    // The name of the kind.
    pub fn words(self) -> &'static str
        ensures { result.now ≡ words_of self }
    {
        match self {
            Kind::Atom => "atom",
            Kind::Falsity => "falsity",
            Kind::And => "and",
            Kind::Or => "or",
            Kind::Implies => "implies",
            Kind::Says => "says",
            Kind::Controls => "controls",
            Kind::Ratified => "ratified",
            Kind::Permitted => "permitted",
            Kind::Labels => "labels",
            Kind::LeftFormula => "left formula",
            Kind::RightFormula => "right formula",
            Kind::Order => "order",
            Kind::Arrow => "arrow",
            Kind::Worlds => "worlds",
            Kind::WorldsAbove => "worlds above",
            Kind::ArrowEnds => "arrow ends",
            Kind::AtomRow => "atom row",
            Kind::Place => "place",
        }
    }

    // What a record of the kind is counted as.
    pub fn sort(self) -> Sort
        ensures { result ≡ sort_of self }
    {
        match self {
            Kind::Atom
            | Kind::Falsity
            | Kind::And
            | Kind::Or
            | Kind::Implies
            | Kind::Says
            | Kind::Controls
            | Kind::Ratified
            | Kind::Permitted => Sort::Formula,
            Kind::Labels | Kind::LeftFormula | Kind::RightFormula | Kind::Order | Kind::Arrow =>
                Sort::Fact,
            Kind::Worlds | Kind::WorldsAbove | Kind::ArrowEnds | Kind::AtomRow | Kind::Place =>
                Sort::Row,
        }
    }

    // How many bytes the body of the kind has.
    pub fn size(self) -> usize
        ensures { result ≡ size_of self }
    {
        match self {
            Kind::Falsity => 0,
            Kind::Atom | Kind::Labels | Kind::Worlds => 2,
            Kind::And
            | Kind::Or
            | Kind::Implies
            | Kind::Says
            | Kind::Controls
            | Kind::Ratified
            | Kind::Permitted
            | Kind::LeftFormula
            | Kind::RightFormula
            | Kind::Order
            | Kind::Place => 4,
            Kind::WorldsAbove | Kind::AtomRow => 6,
            Kind::Arrow => 8,
            Kind::ArrowEnds => 10,
        }
    }
}

// The kind that has a number; refused where no kind has it.
impl TryFrom<u16> for Kind {
    type Error = UnknownKind;

    ghost try_from_gives = { HasNumber };

    fn try_from(number: u16) -> Result<Kind, UnknownKind> {
        match number {
            1 => Ok(Kind::Atom),
            2 => Ok(Kind::Falsity),
            3 => Ok(Kind::And),
            4 => Ok(Kind::Or),
            5 => Ok(Kind::Implies),
            6 => Ok(Kind::Says),
            7 => Ok(Kind::Controls),
            8 => Ok(Kind::Ratified),
            9 => Ok(Kind::Permitted),
            10 => Ok(Kind::Labels),
            11 => Ok(Kind::LeftFormula),
            12 => Ok(Kind::RightFormula),
            13 => Ok(Kind::Order),
            14 => Ok(Kind::Arrow),
            20 => Ok(Kind::Worlds),
            21 => Ok(Kind::WorldsAbove),
            22 => Ok(Kind::ArrowEnds),
            23 => Ok(Kind::AtomRow),
            24 => Ok(Kind::Place),
            _ => Err(UnknownKind(number)),
        }
    }
}

// The kind of a record; refused where no kind has its number.
pub fn kind_of(numbered: Numbered) -> Result<Kind, Refusal>
    ensures { OfKind numbered.entry.raw.kind numbered.entry.at result }
{
    Kind::try_from(numbered.raw.kind).map_err(|_| Refusal::Kind(numbered.at))
}
