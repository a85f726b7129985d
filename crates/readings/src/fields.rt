// What the body of a record says, decoded by the record's kind.
use crate::text::{Modality, WorldSet};
use kinds::facts::{Arrowed, Labelled, Ordered};
use kinds::formulas::{Modal, Parts};
use kinds::rows::{AboveRow, AtomRow, EndsRow, Place};
use records::numbers::{AtomNumber, LabelCount, WorldCount};
use std::fmt;

// The fields of a body: a case for each shape that bodies have.
#[derive(Clone, Copy)]
pub enum Fields {
    Nothing,
    Atom(AtomNumber),
    Parts(Parts),
    Modal(Modal),
    Labels(LabelCount),
    Labelled(Labelled),
    Ordered(Ordered),
    Arrowed(Arrowed),
    Worlds(WorldCount),
    Above(AboveRow),
    Ends(EndsRow),
    AtomRow(AtomRow),
    Place(Place),
}

// Each field by its name; nothing where there is none.
impl fmt::Display for Fields {
    fn fmt<W: fmt::Write>(&self, f: &mut fmt::Formatter<W>) -> fmt::Result {
        match *self {
            Fields::Nothing => Ok(()),
            Fields::Atom(atom) => write!(f, "atom {}", atom.0),
            Fields::Parts(x) => write!(f, "left {}  right {}", x.left.0, x.right.0),
            Fields::Modal(x) => write!(f, "principal {}  formula {}", x.principal.0, x.formula.0),
            Fields::Labels(count) => write!(f, "count {}", count.0),
            Fields::Labelled(x) => write!(f, "label {}  formula {}", x.label.0, x.formula.0),
            Fields::Ordered(x) => write!(f, "lower {}  upper {}", x.lower.0, x.upper.0),
            Fields::Arrowed(x) => {
                let modality = Modality(x.modality);
                write!(f, "modality {modality}  principal {}", x.principal.0)?;
                write!(f, "  from {}  to {}", x.from.0, x.to.0)
            }
            Fields::Worlds(count) => write!(f, "count {}", count.0),
            Fields::Above(x) => write!(f, "world {}  mask {}", x.world.0, WorldSet(x.mask)),
            Fields::Ends(x) => {
                let modality = Modality(x.modality);
                write!(f, "modality {modality}  principal {}", x.principal.0)?;
                write!(f, "  world {}  mask {}", x.world.0, WorldSet(x.mask))
            }
            Fields::AtomRow(x) => write!(f, "atom {}  mask {}", x.atom.0, WorldSet(x.mask)),
            Fields::Place(x) => write!(f, "label {}  world {}", x.label.0, x.world.0),
        }
    }
}
