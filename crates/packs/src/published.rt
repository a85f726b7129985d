// The published pile, from the top: I-SS, C2P, del-C, RS.
use crate::c2p::C2p;
use crate::del_c::DelC;
use crate::i_ss::ISs;
use crate::rs::Rs;
use piles::bare::Bare;
use piles::laid::Laid;

pub type Published = Laid<ISs, Laid<C2p, Laid<DelC, Laid<Rs, Bare>>>>;

pub fn published() -> Published {
    let ratified = Laid {
        layer: Rs,
        below: Bare,
    };
    let delegated = Laid {
        layer: DelC,
        below: ratified,
    };
    let permitted = Laid {
        layer: C2p,
        below: delegated,
    };
    Laid {
        layer: ISs,
        below: permitted,
    }
}
