//! The laws, each as the contract of an empty function.
ghost use Rattle.mig_path.specs.Laws.{PartedRejoins, PartsCanRejoin, RejoinedParts, ThenComposes, JoinIsOver, RestIsFrame, FrameDetermines, OverReads};

/// Rejoining what was parted gives the value.
pub fn parted_rejoins()
    ensures { PartedRejoins }
{}

/// What was parted may be rejoined, and its foci can be given back.
pub fn can_rejoin()
    ensures { PartsCanRejoin }
{}

/// Parting what was rejoined of foci that can be given back gives these foci and the same rest, and counts the same.
pub fn rejoined_parts()
    ensures { RejoinedParts }
{}

/// The foci of an optic after another are the second's foci of the first's foci, in order.
pub fn foci_compose()
    ensures { ThenComposes }
{}

/// Rejoined with changed foci, a value is changed at each focus.
pub fn join_is_over()
    ensures { JoinIsOver }
{}

/// A rest stands for the frame: rejoined with Null for each focus it gives it.
pub fn rest_is_frame()
    ensures { RestIsFrame }
{}

/// The frame determines the rest, and with the foci the value.
pub fn frame_determines()
    ensures { FrameDetermines }
{}

/// A change of a value depends on what is done at its foci alone.
pub fn over_reads()
    ensures { OverReads }
{}
