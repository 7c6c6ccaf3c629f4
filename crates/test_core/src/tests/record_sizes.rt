//! The records that only proofs read take no memory: a type with one has the size of the type without it.
use cadence_flow::io::{LineBuffer, PacketLog};
use cadence_flow::{Counted, RecordedPacker, RecordedWriter};
use cadence_queue::QueueStep;
use cadence_stage::{Log, OwnLog, Receipt, Right, Seen};
use std::mem::size_of;

#[test]
fn a_ledger_takes_no_byte(rt: HostRuntime) {
    assert!(rt; size_of::<OwnLog<u64>>() == 0);
    assert!(rt; size_of::<RecordedWriter<PacketLog>>() == size_of::<PacketLog>());
    assert!(rt; size_of::<Log<u64>>() == 0);
    assert!(rt; size_of::<Right<u64>>() == 0);
    assert!(rt; size_of::<Seen<u64>>() == 0);
    assert!(rt; size_of::<RecordedPacker<PacketLog>>() == size_of::<LineBuffer<PacketLog>>());
    assert!(rt; size_of::<Receipt<RecordedPacker<PacketLog>>>() == 0);
    assert!(rt; size_of::<Counted>() == 0);
    assert!(rt; size_of::<QueueStep<u64>>() == 0);
}
