// What the definitions of a token map and of its faults say of themselves.
ghost use Rattle.med_ring.specs.Blames.{CauseIsOne, RefusedAreNone};
ghost use Rattle.med_ring.specs.Ring.{RingIsOne};

/// A law: bytes are the token map of one list of hosts at most, are refused for one cause at most,
/// and never both. So what `Ring::write` gave for a ring is read to the same hosts again.
pub fn one_ring_of_bytes()
    ensures one { RingIsOne }
    ensures one_cause { CauseIsOne }
    ensures refused { RefusedAreNone }
{}
