//! Tests of `crush_server`: clients in memory, clients over loopback with client and server in one
//! thread, and how long a client may take.
#![tactic(auto)]

#[cfg(test)]
mod given;
#[cfg(test)]
mod loopback;
#[cfg(test)]
mod memory;
#[cfg(test)]
mod messages;
#[cfg(test)]
mod served;
#[cfg(test)]
mod waits;
