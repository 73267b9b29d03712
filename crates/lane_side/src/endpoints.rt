//! What both sides of a driver's cells and bell speak of.

/// What the two sides of a driver's cells and bell speak of. Each member is a value that contracts alone see; a call that
/// may change one of them says what it makes of it.
///
/// A side that does not tell the batches handed, the batches taken or the rungs has a list there that no call of its traits
/// ties to anything.
pub trait Endpoint {
    ghost use Rattle.driver_model.specs.Sides.{Side};
    ghost use Rattle.driver_model.specs.Handover.{FarSide};
    ghost use Rattle.lane_side.specs.Fixed.{Fixed};

    // The driver's half: what its calls change.
    ghost seen: { Self → Side };

    // The daemon's half: what its calls change besides.
    ghost far: { Self → FarSide };

    // What no call changes.
    ghost fixed: { Self → Fixed };
}
