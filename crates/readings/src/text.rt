// Fields as text.
ghost use Rattle.std.specs.Prelude.{◌≡◌, ◌/◌, ◌%◌, ◌^◌, ◌<◌, ◌==◌};
ghost use Rattle.readings.specs.Kinds.{words_of_modality};

use kinds::facts::ModalityNumber;
use kinds::kind::Kind;
use kinds::rows::WorldMask;
use std::fmt;

// Whether a world, 0 to 31, is in the set.
fn contains(mask: WorldMask, world: u32) -> bool
    requires { world < 32 }
    ensures { result ≡ (mask.0 / 2 ^ world % 2 == 1) }
{
    (mask.0 >> world) % 2 == 1
}

// A set of worlds: in hexadecimal, and the worlds in it.
// A wrapper, since `kinds`, whose type it prints, is another crate.
#[derive(Clone, Copy)]
pub(crate) struct WorldSet(pub WorldMask);

impl fmt::Display for WorldSet {
    fn fmt<W: fmt::Write>(&self, f: &mut fmt::Formatter<W>) -> fmt::Result {
        let mask = self.0;
        let bits = mask.0;
        write!(f, "{bits:#010x} worlds")?;
        if bits == 0 {
            return write!(f, " none");
        }
        for world in (0..32).filter(|world| contains(mask, *world)) {
            write!(f, " {world}")?;
        }
        Ok(())
    }
}

// The name of a modality, by its number, which is that of the kind of its formulas.
fn modality_words(modality: ModalityNumber) -> &'static str
    ensures { result.now ≡ words_of_modality modality.0 }
{
    let Ok(kind) = Kind::try_from(modality.0) else {
        return "unknown";
    };
    match kind {
        Kind::Says | Kind::Controls | Kind::Ratified | Kind::Permitted => kind.words(),
        _ => "unknown",
    }
}

// A modality: its number and its name.
// A wrapper, since `kinds`, whose type it prints, is another crate.
#[derive(Clone, Copy)]
pub(crate) struct Modality(pub ModalityNumber);

impl fmt::Display for Modality {
    fn fmt<W: fmt::Write>(&self, f: &mut fmt::Formatter<W>) -> fmt::Result {
        let modality = self.0;
        write!(f, "{} ({})", modality.0, modality_words(modality))
    }
}
