//! Bytes in pieces, as tables hash them. A hasher multiplies pieces of up to eight bytes, each
//! joined with what came before it, by numbers that no text has a part in; of longer ones some
//! bytes would be a factor, and could make the others not count.
ghost use Rattle.std.specs.Prelude.{◌≡◌};
ghost use Rattle.std.specs.List.{fold};
ghost use Rattle.eqc_netlist.specs.Pieces.{pieces};

use std::hash::Hasher;

/// How many bytes a piece has.
const PIECE: usize = 8;

/// Hashes bytes piece by piece.
pub fn write_pieces<H: Hasher>(bytes: &[u8], state: &mut H)
    ensures { state.new ≡ fold H.write state.old (pieces bytes.now) }
{
    let whole = bytes.len() / PIECE;
    for k in 0..whole {
        state.write(&bytes[PIECE * k..PIECE * k + PIECE]);
    }
    state.write(&bytes[PIECE * whole..]);
}
