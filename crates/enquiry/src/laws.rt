// The laws of calls and replies, as theorems.
ghost use Rattle.enquiry.specs.FewerCounted.{FewerCounted};
ghost use Rattle.enquiry.specs.RunLaw.{Determined, RunLaw};
ghost use Rattle.enquiry.specs.Wants.{WantLaw};

/// Whatever is called, and in whatever order: each call is answered as its history says, and the builds that are given are
/// the first of all that fit. Which builds fit goes by what was settled and taken back, and a look tells nothing of them
/// that is not so.
pub fn run_laws()
    ensures run { RunLaw }
    ensures wants { WantLaw }
    ensures determined { Determined }
    ensures fewer { FewerCounted }
{}
