// The laws of the spellings.
ghost use Rattle.std.specs.Prelude.{◌≡◌, ◌^◌, ◌<◌, ℕ, List, None, All};
ghost use Rattle.pipe_base.specs.declared.control.Addressed.{Addressed};
ghost use Rattle.pipe_base.specs.declared.packet.Packet.{Packet};
ghost use Rattle.pipe_codec.specs.Control.{control_bytes, control_fault, IsControl};
ghost use Rattle.pipe_codec.specs.Packet.{packet_bytes, packet_fault, IsPacket};

/// The spelling of a packet has no fault, and no other packet is spelled so: `decode` gives back what `encode` wrote.
pub fn packets_are_read_back()
    ensures fault { (p : Packet) → IsPacket p → packet_fault (packet_bytes p) ≡ None }
    ensures one { (p q : Packet) → IsPacket p → IsPacket q → packet_bytes p ≡ packet_bytes q → p ≡ q }
{}

/// Bytes without a fault are the spelling of a packet.
pub fn faultless_bytes_are_packets()
    ensures { (bytes : List ℕ) → All (λ b. b < 2 ^ 8) bytes → packet_fault bytes ≡ None
        → (p : Packet) × IsPacket p × (packet_bytes p ≡ bytes) }
{}

/// The spelling of a control message has no fault, and no other message is spelled so.
pub fn controls_are_read_back()
    ensures fault { (a : Addressed) → IsControl a → control_fault (control_bytes a) ≡ None }
    ensures one { (a b : Addressed) → IsControl a → IsControl b → control_bytes a ≡ control_bytes b → a ≡ b }
{}

/// Bytes without a fault are the spelling of a control message.
pub fn faultless_bytes_are_controls()
    ensures { (bytes : List ℕ) → All (λ b. b < 2 ^ 8) bytes → control_fault bytes ≡ None
        → (a : Addressed) × IsControl a × (control_bytes a ≡ bytes) }
{}
