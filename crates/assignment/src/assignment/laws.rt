// The laws of the order by precision, as theorems.
ghost use Rattle.assignment.specs.Precision.{AboveBuild, BetweenEnds, JoinLeast, MeetGreatest, PrecisionOrder, RefinesKnown};

/// One assignment refines another exactly if it knows each value that the other knows of an option below 64. This is an
/// order; `join` is the least precise above both and `meet` the most precise below both; at its ends stand the
/// contradiction and the assignment of which nothing is known; and only an inconsistent assignment refines a build
/// besides the build itself.
pub fn precision_laws()
    ensures refines { RefinesKnown }
    ensures order { PrecisionOrder }
    ensures join { JoinLeast }
    ensures meet { MeetGreatest }
    ensures ends { BetweenEnds }
    ensures builds { AboveBuild }
{}
