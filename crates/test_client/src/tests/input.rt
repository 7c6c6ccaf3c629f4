//! Waits for input at a socket.
use cadence_agent::wait_for_input;
use std::net::{Ipv4Addr, SocketAddr, UdpSocket};
use std::os::fd::AsFd;
use std::test::Fail;
use std::time::{Clock, Duration, Instant};

// Asserts that a wait of this time for input at a socket ends with this answer.
fn assert_ends(socket: &UdpSocket, time: Duration, wanted: bool) -> Result<(), Fail> {
    if wait_for_input(socket.as_fd(), time)? != wanted {
        return Err(Fail::new("another answer"));
    }
    Ok(())
}

// Asserts that two waits without input end, the second one after its time.
fn assert_ends_after_time(clock: &impl Clock, socket: &UdpSocket) -> Result<(), Fail> {
    let began = Instant::now(clock)?;
    assert_ends(socket, Duration::ZERO, false)?;
    assert_ends(socket, Duration::from_micros(20_500), false)?;
    if Instant::now(clock)?.duration_since(began) < Duration::from_micros(20_500) {
        return Err(Fail::new("a wait ended before its time"));
    }
    Ok(())
}

#[test]
fn a_wait_ends_by_input_or_after_its_time(rt: HostRuntime) -> Result<(), Fail> {
    let socket = UdpSocket::bind(&rt, SocketAddr::from((Ipv4Addr::LOCALHOST, 0)))?;
    assert_ends_after_time(&rt, &socket)?;
    socket.send_to(b"a", socket.local_addr()?)?;
    assert_ends(&socket, Duration::MAX, true)?;
    assert_ends(&socket, Duration::ZERO, true)
}
