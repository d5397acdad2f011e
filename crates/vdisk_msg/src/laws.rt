// What follows from the definitions.

ghost use Rattle.std.specs.Prelude.{◌≡◌, ◌↔◌};
ghost use Rattle.vdisk_msg.specs.Descriptor.{HasWidths, canonical, disk_desc_of};
ghost use Rattle.vdisk_msg.specs.declared.desc.DiskDesc.{DiskDesc};

/// The canonical bytes of a descriptor read back as it: so decoding what was encoded gives the
/// descriptor back, and descriptors with the same canonical bytes are the same.
pub fn descriptors_read_back()
    ensures reads_back { (desc : DiskDesc) → HasWidths desc → disk_desc_of (canonical desc) ≡ desc }
    ensures same_bytes { (one other : DiskDesc) → HasWidths one → HasWidths other → (one ≡ other) ↔ (canonical one ≡ canonical other) }
{}
