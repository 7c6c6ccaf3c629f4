//! Ready-made sinks over UDP: which address of a host they send to, that their sockets never wait, and how large their
//! buffers may be.
ghost use Rattle.std.specs.Prelude.{◌≤◌, length, IfOk};

use super::sockets::{assert_sends, bind_to_loopback};
use super::steps::{WantedError, assert_counts, assert_refuses};
use cadence_errors::ErrorKind;
use cadence_flow::MetricSink;
use cadence_resolve::{Family, Target, address_of, find_address};
use cadence_sinks::ready::{buffered_udp_sink, host, udp_sink};
use cadence_sinks::{BufferedUdpMetricSink, MAX_PACKET, UdpMetricSinkBuilder};
use std::alloc::{AllocError, Global};
use std::net::{Ipv4Addr, Ipv6Addr, Net, SocketAddr, TcpListener, TcpStream, UdpSocket};
use std::os::fd::AsRawFd;
use std::sync::atomic::{AtomicU64, Ordering};
use std::sync::{Arc, Wait};
use std::test::Fail;
use std::thread::{self, Threads};
use std::time::{Clock, Duration};
use std::{fs, io};
use test_tools::moved_clock::PATIENCE;

// The addresses of a host. The ports are those of the lookup.
fn v6(last: u16, port: u16) -> SocketAddr {
    SocketAddr::from((Ipv6Addr::new(0x2001, 0xdb8, 0, 0, 0, 0, 0, last), port))
}

fn v4(last: u8, port: u16) -> SocketAddr {
    SocketAddr::from((Ipv4Addr::new(127, 0, 0, last), port))
}

// Which addresses the lookup of a host gives.
#[derive(Clone, Copy)]
enum Found {
    Nothing,
    OnlyV6,
    V6First,
    V4First,
    // At first an address to which the system refuses packets, and from the third lookup on one of IPv4.
    Moves,
}

// Returns how many addresses the lookup with this number gives, and up to four of them.
fn addresses_of(found: Found, number: u64, port: u16) -> (usize, [SocketAddr; 4]) {
    let (first, second) = (v6(1, port), v6(2, port));
    match found {
        Found::Nothing => (0, [first; 4]),
        Found::OnlyV6 => (2, [first, second, first, second]),
        Found::V6First => (4, [first, v4(1, port), second, v4(2, port)]),
        Found::V4First => (3, [v4(1, port), first, v4(2, port), second]),
        Found::Moves if number < 2 => { (1, [SocketAddr::from((Ipv4Addr::BROADCAST, port)); 4]) }
        Found::Moves => (1, [v4(1, port); 4]),
    }
}

// A network in which each name has the same addresses. All else is that of another runtime; it notes the file descriptor of
// the last UDP socket, and counts the lookups.
#[derive(Drop)]
struct Listed<R> {
    rt: R,
    found: Found,
    last: Arc<AtomicU64>,
    lookups: Arc<AtomicU64>,
}

impl<R: Wait> Wait for Listed<R> {}

impl<R: Threads> Threads for Listed<R> {}

impl<R: Clock> Clock for Listed<R> {
    fn monotonic(&self) -> io::Result<Duration> {
        self.rt.monotonic()
    }

    fn since_1970(&self) -> io::Result<Duration> {
        self.rt.since_1970()
    }

    fn sleep(&self, duration: Duration) {
        self.rt.sleep(duration)
    }
}

impl<R: Clone> Clone for Listed<R> {
    fn clone(&self) -> Result<Listed<R>, AllocError> {
        Ok(Listed {
            rt: self.rt.clone()?,
            found: self.found,
            last: self.last.clone()?,
            lookups: self.lookups.clone()?,
        })
    }
}

impl<R: Net<Stream = TcpStream, Listener = TcpListener>> Net for Listed<R> {
    type Stream = TcpStream;

    type Listener = TcpListener;

    fn bind(&self, address: SocketAddr) -> io::Result<TcpListener> {
        self.rt.bind(address)
    }

    fn connect(&self, address: SocketAddr) -> io::Result<TcpStream> {
        self.rt.connect(address)
    }

    fn bind_udp(&self, address: SocketAddr) -> io::Result<UdpSocket> {
        let socket = self.rt.bind_udp(address)?;
        let number = u64::from(socket.as_raw_fd().unsigned_abs());
        self.last.store(number, Ordering::SeqCst);
        Ok(socket)
    }

    fn lookup_host(&self, _host: &str, port: u16, found: &mut [SocketAddr]) -> io::Result<usize>
        ensures in_bounds { IfOk result (λ n. n ≤ length found.new) }
    {
        let number = self.lookups.fetch_add(1, Ordering::SeqCst);
        let (count, addresses) = addresses_of(self.found, number, port);
        for (place, address) in found.iter_mut().zip(addresses.iter().take(count)) {
            *place = *address;
        }
        Ok(count.min(found.len()))
    }
}

fn make_listed<R: Clone>(rt: &R, alloc: Global, found: Found) -> Result<Listed<R>, Fail> {
    Ok(Listed {
        rt: rt.clone()?,
        found,
        last: Arc::new(alloc, AtomicU64::new(0))?,
        lookups: Arc::new(alloc, AtomicU64::new(0))?,
    })
}

// The first address of the socket's family is sent to, or if there is none the first address.
#[test]
fn an_address_of_the_sockets_family_comes_first(rt: HostRuntime) -> Result<(), Fail> {
    let rows = [
        (Found::Nothing, None, None),
        (Found::OnlyV6, Some(v6(1, 7)), Some(v6(1, 7))),
        (Found::V6First, Some(v4(1, 7)), Some(v6(1, 7))),
        (Found::V4First, Some(v4(1, 7)), Some(v6(1, 7))),
    ];
    for (found, of_v4, of_v6) in rows {
        let net = make_listed(&rt, rt.alloc(), found)?;
        assert!(rt; find_address(&net, ("both.example", 7))? == of_v4);
        let target: Target = host(rt.alloc(), "both.example", 7)?;
        assert!(rt; address_of(&net, &target, Family::V4).ok() == of_v4);
        assert!(rt; address_of(&net, &target, Family::V6).ok() == of_v6);
    }
    Ok(())
}

#[test]
fn a_socket_of_ipv4_sends_over_ipv4(rt: HostRuntime) -> Result<(), Fail> {
    let server = bind_to_loopback(&rt)?;
    for period in [None, Some(Duration::from_secs(3600))] {
        let net = make_listed(&rt, rt.alloc(), Found::V6First)?;
        let target = host(rt.alloc(), "both.example", server.local_addr()?.port())?;
        let mut builder = UdpMetricSinkBuilder::new();
        if let Some(period) = period {
            builder = builder.with_resolver_period(period);
        }
        let sink = builder.build(net, rt.alloc(), target, bind_to_loopback(&rt)?)?;
        assert_sends(&sink, &server, "buz:1|m")?;
    }
    Ok(())
}

// The system refuses a packet to the address of a broadcast. The second lookup after that is due in a minute.
#[test]
fn a_name_is_looked_up_again_after_a_refused_packet(rt: HostRuntime) -> Result<(), Fail> {
    let server = bind_to_loopback(&rt)?;
    let net = make_listed(&rt, rt.alloc(), Found::Moves)?;
    let target = host(rt.alloc(), "both.example", server.local_addr()?.port())?;
    let sink = udp_sink(&net, rt.alloc(), target)?;
    assert!(rt; sink.emit("lost:1|c").is_err());
    for _ in 0..PATIENCE {
        if net.lookups.load(Ordering::SeqCst) > 2 {
            break;
        }
        thread::sleep(&rt, Duration::from_millis(1));
    }
    thread::sleep(&rt, Duration::from_millis(20));
    assert_sends(&sink, &server, "buz:1|m")
}

// Such a sink has no thread, and so it is made where no thread can be started.
#[test]
fn an_address_as_text_is_not_looked_up(rt: HostRuntime) -> Result<(), Fail> {
    let server = bind_to_loopback(&rt)?;
    let net = make_listed(&rt, rt.alloc(), Found::Nothing)?;
    let target = host(rt.alloc(), "127.0.0.1", server.local_addr()?.port())?;
    let sink = udp_sink(&net, rt.alloc(), target)?;
    assert!(rt; net.lookups.load(Ordering::SeqCst) == 0);
    assert_sends(&sink, &server, "buz:1|m")
}

#[test]
fn a_ready_sink_sends_over_ipv4(rt: HostRuntime) -> Result<(), Fail> {
    let server = bind_to_loopback(&rt)?;
    let net = make_listed(&rt, rt.alloc(), Found::V6First)?;
    let target = host(rt.alloc(), "both.example", server.local_addr()?.port())?;
    let sink = udp_sink(&net, rt.alloc(), target)?;
    assert_sends(&sink, &server, "buz:1|m")
}

#[test]
fn a_name_without_addresses_is_refused(rt: HostRuntime) -> Result<(), Fail> {
    let net = make_listed(&rt, rt.alloc(), Found::Nothing)?;
    let Err(error) = udp_sink(&net, rt.alloc(), host(rt.alloc(), "none.example", 7)?) else {
        return Err(Fail::new("a sink is made"));
    };
    let text = format!(in rt.alloc(); "{error}")?;
    assert!(rt; error.kind() == ErrorKind::InvalidInput);
    assert_eq!(rt; text.as_str(), "No socket addresses yielded");
    Ok(())
}

// Linux shows the flags of a file descriptor in octal, and that of `O_NONBLOCK` is 4000.
#[test]
fn a_ready_socket_never_waits(rt: HostRuntime) -> Result<(), Fail> {
    let net = make_listed(&rt, rt.alloc(), Found::V4First)?;
    let sink = udp_sink(&net, rt.alloc(), host(rt.alloc(), "both.example", 9)?)?;
    let number = net.last.load(Ordering::SeqCst);
    let path = format!(in rt.alloc(); "/proc/self/fdinfo/{number}")?;
    let text = fs::read_to_string(&rt, path.as_str())?;
    let Some(flags) = text.lines().find_map(|line| line.strip_prefix("flags:")) else {
        return Err(Fail::new("no flags"));
    };
    assert!(rt; flags.trim().ends_with("4002"));
    assert_counts(&sink, [0, 0, 0, 0])
}

// Returns a line of this many bytes.
fn line_of(alloc: Global, count: usize) -> Result<String, Fail> {
    let bytes = vec![in alloc; b'a'; count]?;
    match String::from_utf8(bytes) {
        Ok(line) => Ok(line),
        Err(_) => Err(Fail::new("no text")),
    }
}

#[test]
fn a_full_packet_of_the_largest_buffer_is_sent(rt: HostRuntime) -> Result<(), Fail> {
    let target: Target = Target::Addr(bind_to_loopback(&rt)?.local_addr()?);
    let sink = buffered_udp_sink(&rt, rt.alloc(), target, MAX_PACKET)?;
    sink.emit(&line_of(rt.alloc(), MAX_PACKET - 1)?)?;
    sink.flush()?;
    assert_counts(&sink, [65_507, 1, 0, 0])
}

#[test]
fn a_larger_buffer_is_refused(rt: HostRuntime) -> Result<(), Fail> {
    let target: Target = Target::Addr(v4(1, 9));
    let Err(error) = buffered_udp_sink(&rt, rt.alloc(), target, MAX_PACKET + 1) else {
        return Err(Fail::new("a sink is made"));
    };
    let text = format!(in rt.alloc(); "{error}")?;
    assert!(rt; error.kind() == ErrorKind::InvalidInput);
    assert_eq!(rt;
        text.as_str(),
        "the capacity is more than a datagram holds, 65507 bytes"
    );
    Ok(())
}

// A constructor refuses no capacity. The system then refuses the held text at each flush, and so each later line.
#[test]
fn a_packet_that_no_datagram_holds_stays(rt: HostRuntime) -> Result<(), Fail> {
    let server = bind_to_loopback(&rt)?;
    let target: Target = Target::Addr(server.local_addr()?);
    let mine = bind_to_loopback(&rt)?;
    let (own, alloc) = (rt.clone()?, rt.alloc());
    let sink = BufferedUdpMetricSink::with_capacity(own, alloc, target, mine, MAX_PACKET + 1)?;
    sink.emit(&line_of(alloc, MAX_PACKET)?)?;
    assert!(rt; sink.flush().is_err());
    assert_refuses(&sink, "a:1|c", WantedError::Io)?;
    assert_counts(&sink, [0, 0, 131_016, 2])
}
