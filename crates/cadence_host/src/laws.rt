//! Laws of many calls. A function's contract is proved, so a law can be stated as the contract of a function with an
//! empty body.
ghost use Rattle.cadence_host.specs.Run.{NothingIsDropped, NothingIsLost};

/// States that no line is lost. After any calls of a new client, the packets that left it, then the packets that wait,
/// and then the held text are, joined, the frames of the lines of the calls that returned `CADENCE_OK`, in order.
#[tactic(auto, using(crate::proofs::Runs::nothing_is_lost))]
pub fn nothing_is_lost()
    ensures { NothingIsLost }
{}

/// States that a client drops no packet if its queue refuses packets when it is full: the packets that left such a
/// client are those that the host has sent.
#[tactic(auto, using(crate::proofs::Runs::nothing_is_dropped))]
pub fn nothing_is_dropped()
    ensures { NothingIsDropped }
{}
