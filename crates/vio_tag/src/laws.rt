// What follows from the definitions.

ghost use Rattle.std.specs.Prelude.{◌≡◌, ◌≢◌, ◌↔◌, ℕ, List, Result, Some};
ghost use Rattle.vio_tag.specs.Attributes.{DiskAttrHasWidths, NetAttrHasWidths, disk_attr_bytes, disk_attr_of, net_attr_bytes, net_attr_of};
ghost use Rattle.vio_tag.specs.Decoding.{Decodes};
ghost use Rattle.vio_tag.specs.Fault.{first_fault};
ghost use Rattle.vio_tag.specs.Form.{HasWidths, IsWellFormed};
ghost use Rattle.vio_tag.specs.Spelling.{SpellsMessage, canonical};
ghost use Rattle.vio_tag.specs.declared.attributes.DiskAttr.{DiskAttr};
ghost use Rattle.vio_tag.specs.declared.attributes.NetAttr.{NetAttr};
ghost use Rattle.vio_tag.specs.declared.message.Message.{Message};
ghost use Rattle.vio_tag.specs.declared.message.TagFault.{TagFault};

/// Bytes spell at most one well-formed message, and its canonical bytes spell it. So decoding what was encoded gives
/// the message back, and messages with the same canonical bytes are the same.
pub fn spellings_are_unique()
    ensures at_most_one { (bytes : List ℕ) (one other : Message) → IsWellFormed one → IsWellFormed other
        → SpellsMessage bytes one → SpellsMessage bytes other → one ≡ other }
    ensures canonical_spells { (message : Message) → IsWellFormed message → HasWidths message → SpellsMessage (canonical message) message }
    ensures same_bytes { (one other : Message) → IsWellFormed one → IsWellFormed other → HasWidths one → HasWidths other
        → (one ≡ other) ↔ (canonical one ≡ canonical other) }
{}

/// Bytes decode to exactly one result: they spell a well-formed message or have a first fault, and
/// never two messages, two first faults, or a message and a fault.
pub fn bytes_decode_once()
    ensures some_result { (bytes : List ℕ) → (d : Result Message TagFault) × Decodes bytes d }
    ensures one_result { (bytes : List ℕ) (one other : Result Message TagFault) → Decodes bytes one → Decodes bytes other → one ≡ other }
    ensures never_both { (bytes : List ℕ) (message : Message) (fault : TagFault) → IsWellFormed message → SpellsMessage bytes message
        → first_fault bytes ≢ Some fault }
{}

/// The canonical bytes of attributes read back as the attributes.
pub fn attributes_read_back()
    ensures disk { (attr : DiskAttr) → DiskAttrHasWidths attr → disk_attr_of (disk_attr_bytes attr) ≡ attr }
    ensures net { (attr : NetAttr) → NetAttrHasWidths attr → net_attr_of (net_attr_bytes attr) ≡ attr }
{}
