//! A packet on its way out, as `writing` spelled it. It names a node and no address or incarnation: the link knows the
//! way, the bytes the rest.

/// Bytes that go to a node.
#[derive(Debug, Drop)]
pub struct Parcel {
    /// The node.
    pub to: u8,
    /// The bytes.
    pub bytes: Vec<u8>,
}
