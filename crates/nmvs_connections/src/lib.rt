//! Many connections in few threads: each worker has an event loop over the system's readiness events.
//!
//! [`WorkerPool::open`] makes the state that the threads of a server share, and a [`Poller`] for each of them. One
//! thread runs [`accept_loop`]: it accepts connections and hands them to the workers. [`WorkerPool::load`] counts the
//! open ones. Each worker runs [`serve`]: it reads from its connections in turn, feeds the bytes to the
//! [`BufferedSession`] of each, and sends the replies. All sessions of a worker share its desk. With a gateway a
//! connection begins with a header. It carries lines of one peer alone, which the header names. If the buffers of a
//! worker take too much memory, it closes connections of the peer that keeps most.
#![tactic(auto)]

mod acceptor;
mod accounts;
mod buffered_session;
mod connection;
mod event_loop;
mod keepalive;
mod line_stream;
mod next;
mod origin;
mod peer_session;
mod proxy_header;
mod scratch;
mod socket;
mod stream;
mod worker_pool;

pub use acceptor::{HttpListener, accept_loop};
pub use buffered_session::BufferedSession;
pub use event_loop::serve;
pub use socket::Listener;
pub use worker_pool::{Bounds, Load, Poller, WorkerPool};
