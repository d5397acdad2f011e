// What follows from the definitions.

ghost use Rattle.std.specs.Prelude.{◌≡◌, ◌≢◌, ◌↔◌, ℕ, ◌<◌, List, length, Result, Some};
ghost use Rattle.std.specs.List.{AllByRecursion};
ghost use Rattle.ldc_packet.specs.Decoding.{Unpacks};
ghost use Rattle.ldc_packet.specs.Fault.{first_fault};
ghost use Rattle.ldc_packet.specs.Form.{HasWidths, IsWellFormed};
ghost use Rattle.ldc_packet.specs.Spelling.{canonical, SpellsPacket};
ghost use Rattle.ldc_packet.specs.declared.packet.Packet.{Packet};
ghost use Rattle.ldc_packet.specs.declared.packet.PacketFault.{PacketFault};

/// Bytes spell at most one well-formed packet, and its canonical bytes spell it. So decoding what was encoded gives the
/// packet back, and packets with the same canonical bytes are the same.
pub fn spellings_are_unique()
    ensures at_most_one { (bytes : List ℕ) (one other : Packet) → IsWellFormed one → IsWellFormed other
        → SpellsPacket bytes one → SpellsPacket bytes other → one ≡ other }
    ensures canonical_spells { (packet : Packet) → IsWellFormed packet → HasWidths packet → SpellsPacket (canonical packet) packet }
    ensures same_bytes { (one other : Packet) → IsWellFormed one → IsWellFormed other → HasWidths one → HasWidths other
        → (one ≡ other) ↔ (canonical one ≡ canonical other) }
{}

/// 64 bytes decode to exactly one result. They spell a well-formed packet or have a first fault, and never two packets,
/// two first faults, or a packet and a fault.
pub fn bytes_decode_once()
    ensures some_result { (bytes : List ℕ) → length bytes ≡ 64 → AllByRecursion (λ byte. byte < 256) bytes
        → (d : Result Packet PacketFault) × Unpacks bytes d }
    ensures one_result { (bytes : List ℕ) (one other : Result Packet PacketFault) → Unpacks bytes one → Unpacks bytes other → one ≡ other }
    ensures never_both { (bytes : List ℕ) (packet : Packet) (fault : PacketFault) → IsWellFormed packet → SpellsPacket bytes packet
        → first_fault bytes ≢ Some fault }
{}
