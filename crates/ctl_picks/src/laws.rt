//! A theorem about picks. It is a function that does nothing and whose contract is the theorem.
ghost use Rattle.ctl_picks.specs.Laws.{OneGate};

/// If gates encode control values, exactly one gate of a name's picks is true: that of the pick whose leaf is the
/// control value.
pub fn law_of_picks()
    ensures { OneGate }
{}
