//! The listeners for hosts, one for each port of the configuration.
use crate::network::{Channel, Network};
use crate::speech::Speech;
use arrayvec::ArrayString;
use nvt_config::{Config, Port};
use nvt_ports::PORTS_MAX;
use std::alloc::{AllocError, Global};
use std::fmt::Write;
use std::io;
use std::net::{IpAddr, SocketAddr};

// Room for the longest line, that of a listener at an address of IPv6.
const LINE_MAX: usize = 128;

/// A port at an address, if it has one, and the listener where it can be listened to.
#[derive(Drop)]
struct Listener<L> {
    port: u16,
    address: Option<SocketAddr>,
    socket: Option<L>,
}

/// A host that connected, and the port of the configuration that it connected to.
#[derive(Drop)]
pub struct AcceptedHost<S> {
    pub stream: S,
    pub peer: SocketAddr,
    pub port: u16,
}

/// The listeners of the ports of a configuration, and the ports that cannot be listened to.
#[derive(Drop)]
pub struct Listeners<L> {
    listeners: Vec<Listener<L>>,
}

impl<L: Drop> Listeners<L> {
    /// None yet.
    pub fn new(alloc: Global) -> Result<Listeners<L>, AllocError> {
        Ok(Listeners {
            listeners: Vec::with_capacity(alloc, PORTS_MAX)?,
        })
    }

    /// Listens to the ports of this configuration, and to no other. One whose number, address and service stay is not
    /// closed. One that cannot be listened to is named on standard output, once; each one that is on standard error.
    pub fn refresh<N: Network<Listener = L>>(
        &mut self,
        network: &mut N,
        speech: &mut Speech,
        config: &Config,
    ) {
        let ports = config.ports();
        self.listeners.retain(|listener| is_listed(ports, listener));
        for port in ports {
            match self.place_of(port.id) {
                Some(place) => self.try_again(network, speech, place),
                None => self.add(network, speech, port),
            }
        }
    }

    fn place_of(&self, port: u16) -> Option<usize> {
        self.listeners
            .iter()
            .position(|listener| listener.port == port)
    }

    // Tries to listen to a port that could not be listened to.
    fn try_again<N: Network<Listener = L>>(
        &mut self,
        network: &mut N,
        speech: &mut Speech,
        place: usize,
    ) {
        let Some(listener) = self.listeners.get_mut(place) else {
            return;
        };
        if listener.socket.is_some() {
            return;
        }
        if let Ok(socket) = listen(network, listener.address) {
            listener.socket = Some(socket);
            announce(speech, listener.port, listener.address);
        }
    }

    fn add<N: Network<Listener = L>>(&mut self, network: &mut N, speech: &mut Speech, port: &Port) {
        let address = address_of(port);
        let socket = listen(network, address).ok();
        match &socket {
            Some(_) => announce(speech, port.id, address),
            None => complain(speech, port.id),
        }
        let listener = Listener {
            port: port.id,
            address,
            socket,
        };
        // There are no more ports than there is room for.
        let _ = self.listeners.push(listener);
    }

    /// The next host that connected to the listener of this place.
    pub fn accept<N: Network<Listener = L>>(
        &self,
        network: &mut N,
        place: usize,
    ) -> Option<AcceptedHost<N::Stream>> {
        let listener = self.listeners.get(place)?;
        match &listener.socket {
            Some(socket) => {
                let (stream, peer) = network.accept(socket)?;
                Some(AcceptedHost {
                    stream,
                    peer,
                    port: listener.port,
                })
            }
            None => None,
        }
    }
}

fn listen<N: Network>(network: &mut N, address: Option<SocketAddr>) -> io::Result<N::Listener> {
    match address {
        Some(address) => network.listen(address),
        None => Err(io::Error::from(io::ErrorKind::InvalidInput)),
    }
}

fn is_listed<L>(ports: &[Port], listener: &Listener<L>) -> bool {
    ports.iter().any(|port| port.id == listener.port && address_of(port) == listener.address)
}

// The address of a port; of its family nothing is asked.
fn address_of(port: &Port) -> Option<SocketAddr> {
    let ip = IpAddr::parse_ascii(port.address.as_bytes()).ok()?;
    Some(SocketAddr::new(ip, port.service))
}

fn announce(speech: &mut Speech, port: u16, address: Option<SocketAddr>) {
    if let Some(address) = address {
        let mut line = ArrayString::<LINE_MAX>::new();
        if writeln!(line, "listening on {address}, port {port}").is_ok() {
            speech.say(Channel::Error, line.as_bytes());
        }
    }
}

fn complain(speech: &mut Speech, port: u16) {
    let mut line = ArrayString::<LINE_MAX>::new();
    if writeln!(line, "port {port}: cannot listen").is_ok() {
        speech.say(Channel::Output, line.as_bytes());
    }
}
