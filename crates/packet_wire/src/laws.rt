//! What holds of the spellings of packets: each function is a law, and does nothing.

ghost use Rattle.std.specs.Prelude.{◌≡◌, ◌≤◌, ◌<◌, ◌++◌, ℕ, List, [], length, slice_index, true, Ok};
ghost use Rattle.packet_wire.specs.Reading.{reading};
ghost use Rattle.packet_wire.specs.Spelling.{spelling};
ghost use Rattle.packet_wire.specs.WellFormed.{is_well_formed};
ghost use Rattle.packet_wire.specs.declared.packet.Packet.{Packet as PacketValue};

/// The bytes of a well-formed packet are no beginning of another's, and no two packets share theirs.
pub fn one_packet_of_each_spelling()
    ensures beginning { (p q : PacketValue) (rest : List ℕ) → is_well_formed p ≡ true →
        is_well_formed q ≡ true → spelling q ≡ spelling p ++ rest → (p ≡ q) × (rest ≡ []) }
    ensures one { (p q : PacketValue) → is_well_formed p ≡ true → is_well_formed q ≡ true →
        spelling p ≡ spelling q → p ≡ q }
{}

/// Bytes are read as a packet exactly where it is well-formed and they are its spelling.
pub fn each_spelling_is_read()
    ensures read { (p : PacketValue) → is_well_formed p ≡ true → reading (spelling p) ≡ Ok p }
    ensures only { (p : PacketValue) (bytes : List ℕ) → ((i : ℕ) → slice_index bytes i < 256) →
        reading bytes ≡ Ok p → (is_well_formed p ≡ true) × (bytes ≡ spelling p) }
{}

/// A well-formed packet has at most 2,095 bytes.
pub fn spellings_are_short()
    ensures { (p : PacketValue) → is_well_formed p ≡ true → length (spelling p) ≤ 2095 }
{}
