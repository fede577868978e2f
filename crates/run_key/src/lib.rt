//! The key of a run: what tells its sites' datagrams from those of strangers.
//!
//! A site puts a code of 16 bytes behind each datagram's bytes, and hears a datagram only if its code is right. The
//! code is HMAC (RFC 2104) by SHA-256 (FIPS 180-4), cut to its first 16 bytes, as that standard allows. So one who
//! doesn't know the key can make no datagram that is heard, even if it hears all that the sites send; it can only
//! repeat what they sent, which the protocol bears.
#![tactic(auto)]

mod run_key;

pub use run_key::{CODE, KEY, RunKey};
