// What follows from the definitions.

ghost use Rattle.std.specs.Prelude.{◌≡◌, ◌↔◌, ◌<◌, ℕ, List, length, true};
ghost use Rattle.vnet_msg.specs.Descriptor.{HasWidths, canonical, net_desc_of};
ghost use Rattle.vnet_msg.specs.Frames.{IsFrame, frame_buffer, frame_desc, frame_in, holds_frame, moved_size};
ghost use Rattle.vnet_msg.specs.declared.desc.NetDesc.{NetDesc};

/// The canonical bytes of a descriptor read back as it: so decoding what was encoded gives the descriptor back, and
/// descriptors with the same canonical bytes are the same.
pub fn descriptors_read_back()
    ensures reads_back { (desc : NetDesc) → HasWidths desc → net_desc_of (canonical desc) ≡ desc }
    ensures same_bytes { (one other : NetDesc) → HasWidths one → HasWidths other → (one ≡ other) ↔ (canonical one ≡ canonical other) }
{}

/// The descriptor of a frame is one, in any slot of a ring of at most 64. Its buffer has the bytes that the
/// descriptor's one cookie names, and the frame is read from them.
pub fn frames_have_descriptors()
    ensures is_one { (frame : List ℕ) → IsFrame frame → (slot : ℕ) → holds_frame (frame_desc slot (length frame)) ≡ true }
    ensures widths { (frame : List ℕ) → IsFrame frame → (slot : ℕ) → slot < 64 → HasWidths (frame_desc slot (length frame)) }
    ensures buffer { (frame : List ℕ) → IsFrame frame → length (frame_buffer frame) ≡ moved_size (length frame) }
    ensures read { (frame : List ℕ) → IsFrame frame → frame_in (length frame) (frame_buffer frame) ≡ frame }
{}
