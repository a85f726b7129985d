// The axiom that a layer stands for.
ghost use Rattle.axioms.specs.Valid.{Scheme, Valid, says_said, controls_permitted, delegation, ratified_said};
ghost use Rattle.axioms.specs.Axioms.{i_ss_valid, c2p_valid, del_c_valid, rs_valid};

use packs::c2p::C2p;
use packs::del_c::DelC;
use packs::i_ss::ISs;
use packs::rs::Rs;
use piles::layer::Layer;

pub trait StandsFor: Layer {
    ghost scheme: { Scheme };

    // it is valid under the layer's condition
    ghost valid: { (l : Self) → Valid scheme (Self.Layer.condition l) };
}

impl StandsFor for ISs {
    ghost scheme = { says_said };

    ghost valid = { λ l. i_ss_valid };
}

impl StandsFor for C2p {
    ghost scheme = { controls_permitted };

    ghost valid = { λ l. c2p_valid };
}

impl StandsFor for DelC {
    ghost scheme = { delegation };

    ghost valid = { λ l. del_c_valid };
}

impl StandsFor for Rs {
    ghost scheme = { ratified_said };

    ghost valid = { λ l. rs_valid };
}

// The layer's axiom holds at every world of every model that keeps the rules and meets its condition.
pub fn axiom_stands<L: StandsFor>(layer: &L)
    ensures { Valid L.StandsFor.scheme (L.Layer.condition layer.now) }
{}
