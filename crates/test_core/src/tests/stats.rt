//! Counts of a sink that clones share.
use cadence_errors::SinkError;
use cadence_flow::SocketStats;
use cadence_flow::stats::{SinkStats, Unread};
use std::test::Fail;
use std::thread;
use test_tools::RefusingAllocator;

#[test]
fn clones_share_their_counts(rt: HostRuntime) -> Result<(), Fail> {
    let stats = SocketStats::new(rt.clone()?, rt.alloc())?;
    let theirs = stats.clone()?;
    let (taken, refused) = thread::join(
        &rt,
        || stats.update(Ok(8), 9),
        || theirs.update(Err(SinkError::PacketRefused), 5),
    );
    assert!(rt; matches!(taken, Ok(8)));
    assert!(rt; matches!(refused, Err(SinkError::PacketRefused)));
    let counts = SinkStats::from(&theirs);
    assert!(rt; counts.bytes_sent == 8 && counts.packets_sent == 1);
    assert!(rt; counts.bytes_dropped == 5 && counts.packets_dropped == 1);
    Ok(())
}

#[test]
fn each_count_by_itself(rt: HostRuntime) -> Result<(), Fail> {
    let stats = SocketStats::new(rt.clone()?, rt.alloc())?;
    stats.incr_bytes_sent(10);
    stats.incr_packets_sent();
    stats.incr_bytes_dropped(20);
    stats.incr_packets_dropped();
    assert!(rt; stats.count(Unread::of(Some(3), b"four"), 4) == Some(3));
    assert!(rt; stats.count(Unread::of(None, b"fives"), 5).is_none());
    let counts = SinkStats::from(&stats);
    assert!(rt; counts.bytes_sent == 13 && counts.packets_sent == 2);
    assert!(rt; counts.bytes_dropped == 25 && counts.packets_dropped == 2);
    Ok(())
}

#[test]
fn counts_without_memory_are_refused(rt: HostRuntime) -> Result<(), Fail> {
    let heap = RefusingAllocator::after(rt.alloc(), rt.alloc(), 0)?;
    assert!(rt; SocketStats::new(rt.clone()?, heap).is_err());
    Ok(())
}
