// The record kinds have the numbers and sizes of the table of kinds.
ghost use Rattle.kinds.specs.Kinds.{IsOf};
ghost use Rattle.kinds.specs.declared.kind.Kind.TheVariants as K;

use crate::facts::*;
use crate::formulas::*;
use crate::rows::*;
use records::kind::RecordKind;

// Each record kind of a dossier or a model has the number and the size that the table gives.
pub fn kinds_agree()
    ensures atomformula { IsOf ⟦<AtomFormula as RecordKind>⟧.KIND ⟦<AtomFormula as RecordKind>⟧.SIZE K.Atom }
    ensures falsity { IsOf ⟦<Falsity as RecordKind>⟧.KIND ⟦<Falsity as RecordKind>⟧.SIZE K.Falsity }
    ensures and { IsOf ⟦<And as RecordKind>⟧.KIND ⟦<And as RecordKind>⟧.SIZE K.And }
    ensures or { IsOf ⟦<Or as RecordKind>⟧.KIND ⟦<Or as RecordKind>⟧.SIZE K.Or }
    ensures implies { IsOf ⟦<Implies as RecordKind>⟧.KIND ⟦<Implies as RecordKind>⟧.SIZE K.Implies }
    ensures says { IsOf ⟦<Says as RecordKind>⟧.KIND ⟦<Says as RecordKind>⟧.SIZE K.Says }
    ensures controls { IsOf ⟦<Controls as RecordKind>⟧.KIND ⟦<Controls as RecordKind>⟧.SIZE K.Controls }
    ensures ratified { IsOf ⟦<Ratified as RecordKind>⟧.KIND ⟦<Ratified as RecordKind>⟧.SIZE K.Ratified }
    ensures permitted { IsOf ⟦<Permitted as RecordKind>⟧.KIND ⟦<Permitted as RecordKind>⟧.SIZE K.Permitted }
    ensures labels { IsOf ⟦<Labels as RecordKind>⟧.KIND ⟦<Labels as RecordKind>⟧.SIZE K.Labels }
    ensures leftfact { IsOf ⟦<LeftFact as RecordKind>⟧.KIND ⟦<LeftFact as RecordKind>⟧.SIZE K.LeftFormula }
    ensures rightfact { IsOf ⟦<RightFact as RecordKind>⟧.KIND ⟦<RightFact as RecordKind>⟧.SIZE K.RightFormula }
    ensures orderfact { IsOf ⟦<OrderFact as RecordKind>⟧.KIND ⟦<OrderFact as RecordKind>⟧.SIZE K.Order }
    ensures arrowfact { IsOf ⟦<ArrowFact as RecordKind>⟧.KIND ⟦<ArrowFact as RecordKind>⟧.SIZE K.Arrow }
    ensures worlds { IsOf ⟦<Worlds as RecordKind>⟧.KIND ⟦<Worlds as RecordKind>⟧.SIZE K.Worlds }
    ensures above { IsOf ⟦<Above as RecordKind>⟧.KIND ⟦<Above as RecordKind>⟧.SIZE K.WorldsAbove }
    ensures ends { IsOf ⟦<Ends as RecordKind>⟧.KIND ⟦<Ends as RecordKind>⟧.SIZE K.ArrowEnds }
    ensures atomholds { IsOf ⟦<AtomHolds as RecordKind>⟧.KIND ⟦<AtomHolds as RecordKind>⟧.SIZE K.AtomRow }
    ensures stands { IsOf ⟦<Stands as RecordKind>⟧.KIND ⟦<Stands as RecordKind>⟧.SIZE K.Place }
{}
