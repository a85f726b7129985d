// How a record reads: its kind, and the fields that its body gives.
ghost use Rattle.std.specs.Prelude.{◌≡◌};
ghost use Rattle.records.specs.Kinds.{decoded};
ghost use Rattle.kinds.specs.Kinds.{size_of};
ghost use Rattle.readings.specs.Fields.{fields_of};
ghost use Rattle.readings.specs.Readings.{ReadsAs, counted_as};

use crate::fields::Fields;
use kinds::facts::{ArrowFact, Labels, LeftFact, OrderFact, RightFact};
use kinds::formulas::{
    And, AtomFormula, Controls, Falsity, Implies, Or, Permitted, Ratified, Says,
};
use kinds::kind::{Kind, Sort, UnknownKind};
use kinds::rows::{Above, AtomHolds, Ends, Stands, Worlds};
use records::record::Numbered;
use records::refusal::Refusal;

// How a record of a known kind reads.
#[derive(Clone, Copy)]
pub struct Reading {
    pub kind: Kind,
    // refused, as a reader of the kind refuses it, where its body has another size than the kind's
    pub fields: Result<Fields, Refusal>,
}

impl Reading {
    // How a record reads; refused where its kind is unknown.
    pub fn of(record: Numbered) -> Result<Reading, UnknownKind>
        ensures { ReadsAs «record».entry.raw.kind «record».entry.raw.body.now «record».entry.at result }
    {
        let kind = Kind::try_from(record.raw.kind)?;
        Ok(Reading {
            kind,
            fields: read_fields(kind, record),
        })
    }
}

// What a record that reads so is counted as.
pub fn counted_as(reading: Result<Reading, UnknownKind>) -> Sort
    ensures { result ≡ counted_as reading }
{
    match reading {
        Ok(reading) if reading.fields.is_ok() => reading.kind.sort(),
        Ok(_) => Sort::WrongSize,
        Err(_) => Sort::Unknown,
    }
}

// The fields of a record of the kind `kind`; refused where the size of its body is wrong for the kind.
fn read_fields(kind: Kind, record: Numbered) -> Result<Fields, Refusal>
    ensures { result ≡ decoded (size_of kind) (fields_of kind) «record».entry.raw.body.now «record».entry.at }
{
    Ok(match kind {
        Kind::Atom => Fields::Atom(record.decode::<AtomFormula>()?),
        Kind::Falsity => {
            record.decode::<Falsity>()?;
            Fields::Nothing
        }
        Kind::And => Fields::Parts(record.decode::<And>()?),
        Kind::Or => Fields::Parts(record.decode::<Or>()?),
        Kind::Implies => Fields::Parts(record.decode::<Implies>()?),
        Kind::Says => Fields::Modal(record.decode::<Says>()?),
        Kind::Controls => Fields::Modal(record.decode::<Controls>()?),
        Kind::Ratified => Fields::Modal(record.decode::<Ratified>()?),
        Kind::Permitted => Fields::Modal(record.decode::<Permitted>()?),
        Kind::Labels => Fields::Labels(record.decode::<Labels>()?),
        Kind::LeftFormula => Fields::Labelled(record.decode::<LeftFact>()?),
        Kind::RightFormula => Fields::Labelled(record.decode::<RightFact>()?),
        Kind::Order => Fields::Ordered(record.decode::<OrderFact>()?),
        Kind::Arrow => Fields::Arrowed(record.decode::<ArrowFact>()?),
        Kind::Worlds => Fields::Worlds(record.decode::<Worlds>()?),
        Kind::WorldsAbove => Fields::Above(record.decode::<Above>()?),
        Kind::ArrowEnds => Fields::Ends(record.decode::<Ends>()?),
        Kind::AtomRow => Fields::AtomRow(record.decode::<AtomHolds>()?),
        Kind::Place => Fields::Place(record.decode::<Stands>()?),
    })
}
