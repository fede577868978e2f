//! Packets of each kind, lawful and not.

mod packets;
mod refused;
