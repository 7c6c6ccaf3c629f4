//! Laws that follow from the definitions. Each function does nothing when it runs: its contract is a law, and a proof
//! that needs the law cites the call.
ghost use Rattle.cadence_schedule.specs.InTurn.{AllAreSent};
ghost use Rattle.cadence_schedule.specs.Laws.{LeastPackets, PacketsReadOneWay};

use cadence_text::laws::{free_is_clear, packet_reads_one_way};

/// States that no admissible plan of packets has fewer packets than a tight plan of the same lines.
pub fn tight_is_fewest()
    ensures { LeastPackets }
{}

/// States that packets can be read in one way, if each line ends in a newline: if the packed metrics are clear, as no
/// other clear metrics, and if they are free of separators, as no other such metrics.
pub fn packets_read_one_way()
    ensures { PacketsReadOneWay }
{
    packet_reads_one_way();
    free_is_clear();
}

/// States that flushes starve no context: if an aggregator holds `n` contexts, and each of the next `n` flushes sends at
/// least one line, then all these contexts were sent, in their order.
pub fn flushes_send_all()
    ensures { AllAreSent }
{}
