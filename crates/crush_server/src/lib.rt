//! The server: clients of a listener, served one after the other, over TCP by the tenants in a
//! database file.
#![tactic(auto)]

mod client;
mod connection;
mod connections;
mod fault;
mod listener;
mod on_file;
mod on_store;
mod waiting;

pub use client::Client;
pub use connection::TcpClients;
pub use connections::serve_connections;
pub use fault::ServerFault;
pub use listener::Listener;
pub use on_file::serve_on_file;
pub use on_store::serve_on_store;
pub use waiting::Waiting;
