//! Where connections come from: a port, and a listener that is registered.

ghost use Rattle.std.specs.Prelude.{◌≡◌, ℕ, Bool, List, Option, None, OnOk, map, true, false, ⊤};
ghost use Rattle.mio.specs.Events.{items};
ghost use Rattle.shop_serve.specs.Ports.{given_by, key_of};
ghost use Rattle.shop_serve.specs.Times.{Adds};

use crate::faults::ServeFault;
use mio::net::{TcpListener, TcpStream as Stream};
use mio::unix::SourceFd;
use mio::{Events, Interest, Poll, Registry, Token};
use std::alloc::{AllocError, Global};
use std::io::{self, ErrorKind};
use std::net::{Ipv4Addr, Net, SocketAddr, SocketAddrV4};
use std::os::fd::AsRawFd;
use std::time::Duration;

// How many are reported at once.
const MAX_EVENTS: usize = 256;

// How often it is tried to accept one, where those that waited went away.
const MAX_TRIES: u32 = 1000;

// The token of the listener. No connection has it.
const LISTENER: Token = Token(usize::MAX);

/// A listener on a port of this machine alone.
#[derive(Drop)]
pub struct Listener {
    socket: TcpListener,
}

/// Why a port can't be listened to.
#[derive(Clone, Copy, Debug, PartialEq, Eq)]
pub enum PortCause {
    /// Another program listens to it.
    InUse,
    /// This account may not.
    NotAllowed,
    /// The system refuses it, or connections can't be accepted or waited for.
    Refused,
    /// The system gives no random bytes for a run.
    NoRun,
}

// Why the system refused to listen.
fn port_cause(error: &io::Error) -> PortCause {
    match error.kind() {
        ErrorKind::AddrInUse => PortCause::InUse,
        ErrorKind::PermissionDenied => PortCause::NotAllowed,
        _ => PortCause::Refused,
    }
}

/// Listens on a port of this machine, with the longest queue of waiting connections that the system allows.
pub fn listen<R: Net>(rt: &R, port: u32) -> Result<Listener, PortCause> {
    let Ok(number) = u16::try_from(port) else {
        return Err(PortCause::Refused);
    };
    let address = SocketAddr::V4(SocketAddrV4::new(Ipv4Addr::LOCALHOST, number));
    match TcpListener::bind(rt, address) {
        Ok(socket) => Ok(Listener { socket }),
        Err(error) => Err(port_cause(&error)),
    }
}

/// Where connections come from: it reports which of them are ready, and accepts new ones.
pub(crate) trait Port<C> {
    /// The keys reported so far, if they are known.
    ghost all_reported: { Self → Option (List ℕ) };

    /// The connections accepted so far, if they are known.
    ghost given: { Self → Option (List C) };

    /// The keys that the last wait reported.
    ghost reported: { Self → List ℕ };

    /// It reports a connection under a key.
    ghost is_registered: { Self → C → ℕ → Type 0 };

    /// It can't report one more connection.
    ghost is_deaf: { Self → Type 0 };

    /// It took its last descriptor for the connection that it accepted last.
    ghost is_scarce: { Self → Bool };

    /// Waits until a connection is ready, or for this long.
    fn wait(&mut self, wait: Duration) -> Result<(), ServeFault>
        ensures reported { OnOk result (Adds (all_reported self.old) (all_reported self.new) (reported self.new)) }
        ensures given { given self.new ≡ given self.old };

    /// The keys that the last wait reported.
    fn keys(&self) -> &[usize]
        ensures { result.now ≡ reported self.now };

    /// The next connection, if one waits and can be accepted now.
    fn accept(&mut self) -> Result<Option<C>, ServeFault>
        ensures given { Adds (given self.old) (given self.new) (given_by result) }
        ensures reported { all_reported self.new ≡ all_reported self.old };

    /// Whether it took its last descriptor for the connection that it accepted last, so another one has to be closed.
    fn is_scarce(&self) -> bool
        ensures { result ≡ is_scarce self.now };

    /// Reports a connection under a key from now on; false if it can't.
    fn register(&mut self, stream: &mut C, key: usize) -> bool
        ensures same { stream.new ≡ stream.old }
        ensures registered { result ≡ true → is_registered self.new stream.new key }
        ensures deaf { result ≡ false → is_deaf self.new }
        ensures reported { all_reported self.new ≡ all_reported self.old }
        ensures given { given self.new ≡ given self.old };
}

/// A listener that is registered beside the connections that it accepted.
#[derive(Drop)]
pub(crate) struct RegisteredListener<'a> {
    listener: &'a Listener,
    poll: Poll,
    events: Events,
    keys: Vec<usize>,
    // Another descriptor of the poll, made at an accept: closed, it makes room for a connection if none is left.
    spare: Option<Registry>,
    is_scarce: bool,
}

impl<'a> RegisteredListener<'a> {
    /// Registers a listener.
    pub(crate) fn new<R: Net>(
        rt: &R,
        alloc: Global,
        listener: &'a Listener,
    ) -> Result<RegisteredListener<'a>, ServeFault> {
        let events = Events::with_capacity(alloc, MAX_EVENTS)?;
        let keys = Vec::with_capacity(alloc, MAX_EVENTS)?;
        let poll = registered(rt, listener)?;
        Ok(RegisteredListener {
            listener,
            poll,
            events,
            keys,
            spare: None,
            is_scarce: false,
        })
    }
}

// Waits for what comes to a listener.
fn registered<R: Net>(rt: &R, listener: &Listener) -> Result<Poll, ServeFault> {
    let Ok(poll) = Poll::new(rt) else {
        return Err(ServeFault::Port);
    };
    let descriptor = listener.socket.as_raw_fd();
    let mut source = SourceFd(&descriptor);
    if poll
        .registry()
        .register(&mut source, LISTENER, Interest::READABLE)
        .is_err()
    {
        return Err(ServeFault::Port);
    }
    Ok(poll)
}

// Puts the keys of what is reported into a list.
fn note_keys(events: &Events, keys: &mut Vec<usize>) -> Result<(), AllocError>
    ensures { OnOk result (keys.new.items ≡ map key_of (items events.now)) }
{
    keys.clear();
    for event in events.iter() {
        keys.push(event.token().0)?;
    }
    Ok(())
}

// Whether an error says that no connection can be accepted for good: EBADF, EINVAL and ENOTSOCK. Any other, as running out of
// descriptors or memory, is temporary.
fn is_gone(error: &io::Error) -> bool {
    match error.raw_os_error() {
        Some(number) => number == 9 || number == 22 || number == 88,
        None => false,
    }
}

// Whether an error concerns only the connection that waited, which it takes from the queue: ENONET, EPROTO, ENOPROTOOPT,
// EOPNOTSUPP, ENETDOWN, ENETUNREACH, EHOSTDOWN and EHOSTUNREACH. By these accept(2) reports errors of its network.
fn is_of_connection(error: &io::Error) -> bool {
    match error.raw_os_error() {
        Some(number) => {
            let is_protocol = number == 71 || number == 92 || number == 95;
            let is_network = number == 64 || number == 100 || number == 101;
            is_protocol || is_network || number == 112 || number == 113
        }
        None => false,
    }
}

// Whether an error says that no descriptor is left for a connection: EMFILE and ENFILE.
fn lacks_descriptor(error: &io::Error) -> bool {
    match error.raw_os_error() {
        Some(number) => matches!(number, 23 | 24),
        None => false,
    }
}

// The outcome of an accept: a connection; none waits or can be accepted now; or no descriptor is left for one.
#[derive(Drop)]
enum Accepted {
    Stream(Stream),
    Nothing,
    NoDescriptor,
}

// Accepts the next connection of a listener.
fn next_stream(listener: &Listener) -> Result<Accepted, ServeFault> {
    for _ in 0..MAX_TRIES {
        match listener.socket.accept() {
            Ok((stream, _)) => return Ok(Accepted::Stream(stream)),
            Err(error) => match error.kind() {
                ErrorKind::Interrupted | ErrorKind::ConnectionAborted => (),
                _ if is_of_connection(&error) => (),
                _ if is_gone(&error) => return Err(ServeFault::Port),
                _ if lacks_descriptor(&error) => return Ok(Accepted::NoDescriptor),
                _ => return Ok(Accepted::Nothing),
            },
        }
    }
    Ok(Accepted::Nothing)
}

impl<'a> RegisteredListener<'a> {
    // Accepts the next connection with the spare descriptor, if there is one.
    fn accept_scarce(&mut self) -> Result<Option<Stream>, ServeFault> {
        let Some(spare) = self.spare.take() else {
            return Ok(None);
        };
        drop(spare);
        match next_stream(self.listener)? {
            Accepted::Stream(stream) => {
                self.is_scarce = true;
                Ok(Some(stream))
            }
            _ => Ok(None),
        }
    }
}

impl<'a> Port<Stream> for RegisteredListener<'a> {
    ghost all_reported = { λ _. None };

    ghost given = { λ _. None };

    ghost reported = { λ listening. listening.keys.items };

    ghost is_registered = { λ _ _ _. ⊤ };

    ghost is_deaf = { λ _. ⊤ };

    ghost is_scarce = { λ port. port.is_scarce };

    fn wait(&mut self, wait: Duration) -> Result<(), ServeFault> {
        if self.poll.poll(&mut self.events, Some(wait)).is_err() {
            return Err(ServeFault::Port);
        }
        match note_keys(&self.events, &mut self.keys) {
            Ok(()) => Ok(()),
            Err(_) => Err(ServeFault::Port),
        }
    }

    fn keys(&self) -> &[usize] {
        &self.keys
    }

    fn accept(&mut self) -> Result<Option<Stream>, ServeFault> {
        self.is_scarce = false;
        if self.spare.is_none() {
            self.spare = self.poll.registry().try_clone().ok();
        }
        match next_stream(self.listener)? {
            Accepted::Stream(stream) => Ok(Some(stream)),
            Accepted::Nothing => Ok(None),
            Accepted::NoDescriptor => self.accept_scarce(),
        }
    }

    fn is_scarce(&self) -> bool {
        self.is_scarce
    }

    fn register(&mut self, stream: &mut Stream, key: usize) -> bool {
        let both = Interest::READABLE.add(Interest::WRITABLE);
        self.poll
            .registry()
            .register(stream, Token(key), both)
            .is_ok()
    }
}
