//! An editor's mirror: messages that are sent, replies that are heard whole and in pieces, and what
//! is seen of nodes; and a client's loop over a stored exchange.
pub(crate) mod calls;
pub(crate) mod client;
pub(crate) mod hearing;
pub(crate) mod looks;
pub(crate) mod shapes;
pub(crate) mod telling;
