//! A TCP connection between a master and a slave.

use crate::flow::Flow;
use std::alloc::Global;
use std::net::SocketAddr;

/// A TCP connection between a master and a slave.
#[derive(Drop)]
pub struct Connection {
    /// The master.
    pub master: SocketAddr,
    /// What it sends.
    pub commands: Flow,
    /// What the slave sends.
    pub answers: Flow,
}

impl Connection {
    /// Nothing came yet.
    pub fn new(alloc: Global, master: SocketAddr) -> Connection {
        Connection {
            master,
            commands: Flow::new(alloc),
            answers: Flow::new(alloc),
        }
    }

    /// One of its directions.
    pub fn flow(&mut self, is_of_master: bool) -> &mut Flow {
        if is_of_master {
            &mut self.commands
        } else {
            &mut self.answers
        }
    }
}
