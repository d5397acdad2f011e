// The pieces of a descriptor: its units, each read or written on the store and copied by the descriptor's cookies, or a flush.

ghost use Rattle.std.specs.Prelude.{◌≡◌, ◌+◌, ◌*◌, ◌/◌, ◌^◌, ◌<◌, ◌≤◌, ℕ, List, length, nat_lt, IsTrue, None, Some};
ghost use Rattle.cookie_copy.specs.Faults.{PagesWithin};
ghost use Rattle.vdisk_msg.specs.Check.{first_defect, most_bytes};
ghost use Rattle.vdisk_msg.specs.Descriptor.{disk_desc_of};
ghost use Rattle.vdisk_msg.specs.Pieces.{refusal_status, unit_count};
ghost use Rattle.lane_models.specs.ServerWork.{data_cookies, desc_of, first_progress, first_progress_of, gathers_next, length_of, or_ends, reads_next, unit_block, unit_length};
ghost use Rattle.descriptor_work.specs.Calling.{CalledOnce, reach_over};
ghost use Rattle.descriptor_work.specs.Fields.{progress_of, work_with};
ghost use Rattle.descriptor_work.specs.Pieces.{PieceIn, PieceOn};
ghost use Rattle.descriptor_work.specs.Units.{IsUnit};
ghost use Rattle.descriptor_work.specs.declared.work.Progress.TheVariants as kept;

use crate::answers::{StoreCall, UnitCopy};
use crate::descriptor::Descriptor;
use crate::unit::{UNIT, UnitBuffer};
use crate::work::{Progress, Work};
use cookie_copy::copy_out;
use dom_memory::Memory;
use flat_store::Region;
use ldc_queue::{Channel, End};
use map_table::{Cookie, MapTable};
use vdisk_msg::{BLOCK, DescFault, DiskDesc, VD_OP_BREAD, VD_OP_BWRITE, VD_OP_FLUSH, check};
use vio_io::Store;
use vio_tag::DISK_OPERATIONS;

/// The statuses that it gives, by their Linux names.
const OK: u32 = 0;

const EIO: u32 = 5;

const EINVAL: u32 = 22;

const ENOTSUP: u32 = 48;

/// The blocks of a unit.
const UNIT_BLOCKS: u64 = 16;

// What comes first of a descriptor: its status where it has a defect, else its first unit.
impl Work {
    /// The descriptor of these bytes, of a disk of so many blocks, of which nothing is done yet.
    pub fn begin(bytes: &[u8; 128], blocks: u64) -> Work
        ensures { (held : List ℕ) → work_with result held
            ≡ record { bytes = bytes.now; progress = first_progress blocks (disk_desc_of bytes.now) } }
    {
        let descriptor = Descriptor::new(bytes);
        let progress = first_progress(descriptor.desc(), blocks);
        Work {
            descriptor,
            progress,
        }
    }
}

fn first_progress(desc: &DiskDesc, blocks: u64) -> Progress
    ensures { (bytes : List ℕ) → progress_of result bytes ≡ first_progress blocks desc.now }
{
    match check(desc, blocks, DISK_OPERATIONS) {
        Ok(()) => first_piece(desc.operation),
        Err(fault) => Progress::Ends {
            status: refusal_status(fault),
        },
    }
}

fn first_piece(operation: u8) -> Progress
    ensures { (bytes : List ℕ) → progress_of result bytes ≡ first_progress_of operation }
{
    match operation {
        VD_OP_BREAD => Progress::Reads { unit: 0 },
        VD_OP_BWRITE => Progress::Gathers { unit: 0 },
        _ => Progress::Flushes,
    }
}

fn refusal_status(fault: DescFault) -> u32
    ensures { result ≡ refusal_status fault }
{
    match fault {
        DescFault::Operation => ENOTSUP,
        DescFault::Cookies | DescFault::Size | DescFault::Range => EINVAL,
    }
}

// Where a unit lies.
impl Work {
    /// The first block of a unit, on the disk.
    fn unit_block(&self, unit: u32, blocks: u64) -> u64
        requires { IsUnit blocks unit (disk_desc_of self.now.descriptor) }
        ensures { (bytes : List ℕ) → result ≡ unit_block (work_with self.now bytes) unit }
    {
        self.descriptor.desc().offset + UNIT_BLOCKS * unit as u64
    }

    /// The bytes of a unit: 8,192, or fewer in the last one.
    fn unit_size(&self, unit: u32, blocks: u64) -> usize
        requires { IsUnit blocks unit (disk_desc_of self.now.descriptor) }
        ensures length { (bytes : List ℕ) → result ≡ length_of (work_with self.now bytes) unit }
        ensures most { result ≤ 8192 }
    {
        (self.descriptor.desc().size - UNIT * unit as u64).min(UNIT) as usize
    }

    /// The cookies of the client's buffer.
    fn cookies(&self) -> &[Cookie]
        requires { (disk_desc_of self.now.descriptor).count ≤ 5 }
        ensures { (bytes : List ℕ) → result.now ≡ data_cookies (work_with self.now bytes) }
    {
        let desc = self.descriptor.desc();
        &desc.cookies[..desc.count as usize]
    }
}

/// What comes next after a call of the store: one that failed ends the descriptor.
fn or_ends(failed: bool, next: Progress) -> Progress
    ensures { (bytes : List ℕ) → progress_of result bytes ≡ or_ends failed (progress_of next bytes) }
{
    if failed {
        Progress::Ends { status: EIO }
    } else {
        next
    }
}

/// Where a block of a disk stands in its store.
fn store_place<D: Store>(store: &D, region: Region, block: u64) -> u64
    requires { 512 * (region.first + block) ≤ D.size store.now }
    ensures { result ≡ 512 * (region.first + block) }
{
    // The store's length is a u64, and the place is none beyond it. That the place fits a u64 is known by this call
    // alone.
    let _length = store.len();
    BLOCK * (region.first + block)
}

/// The blocks of so many bytes.
fn block_count(size: usize) -> u32
    requires { size ≤ 8192 }
    ensures { result ≡ size / 512 }
{
    (size as u64 / BLOCK) as u32
}

// The pieces on the store.
impl Work {
    /// A unit is read from the store.
    pub fn read_unit<D: Store>(
        &mut self,
        unit: u32,
        region: Region,
        buffer: &mut UnitBuffer,
        store: &mut D,
    ) -> StoreCall
        requires progress { self.old.progress ≡ kept.Reads unit }
        requires unit { IsUnit region.blocks unit (disk_desc_of self.old.descriptor) }
        requires region { 512 * (region.first + region.blocks) ≤ D.size store.old }
        ensures piece { PieceOn region.first (work_with self.old buffer.old) (D.content store.old) result
            (work_with self.new buffer.new) (D.content store.new) }
        ensures store { CalledOnce D.Store result.operation result.failed store.old store.new }
        ensures size { D.size store.new ≡ D.size store.old }
        ensures within { result.block + result.count ≤ region.blocks }
    {
        let block = self.unit_block(unit, region.blocks);
        let size = self.unit_size(unit, region.blocks);
        let at = store_place(store, region, block);
        let failed = buffer.read(store, at, size).is_err();
        self.progress = or_ends(failed, Progress::Gives { unit });
        StoreCall {
            operation: VD_OP_BREAD,
            block,
            count: block_count(size),
            failed,
        }
    }

    /// A unit is written to the store.
    pub fn write_unit<D: Store>(
        &mut self,
        unit: u32,
        region: Region,
        buffer: &UnitBuffer,
        store: &mut D,
    ) -> StoreCall
        requires progress { self.old.progress ≡ kept.Writes unit }
        requires unit { IsUnit region.blocks unit (disk_desc_of self.old.descriptor) }
        requires held { length buffer.now ≡ length_of (work_with self.old buffer.now) unit }
        requires region { 512 * (region.first + region.blocks) ≤ D.size store.old }
        ensures piece { PieceOn region.first (work_with self.old buffer.now) (D.content store.old) result
            (work_with self.new buffer.now) (D.content store.new) }
        ensures store { CalledOnce D.Store result.operation result.failed store.old store.new }
        ensures size { D.size store.new ≡ D.size store.old }
        ensures within { result.block + result.count ≤ region.blocks }
    {
        let block = self.unit_block(unit, region.blocks);
        let bytes = buffer.bytes();
        let at = store_place(store, region, block);
        let failed = store.write_at(at, bytes).is_err();
        self.progress = or_ends(failed, self.gathers_next(unit));
        StoreCall {
            operation: VD_OP_BWRITE,
            block,
            count: block_count(bytes.len()),
            failed,
        }
    }

    /// The store is flushed.
    pub fn flush<D: Store>(&mut self, store: &mut D) -> StoreCall
        requires progress { self.old.progress ≡ kept.Flushes }
        ensures piece { (first : ℕ) (bytes : List ℕ) → PieceOn first (work_with self.old bytes) (D.content store.old)
            result (work_with self.new bytes) (D.content store.new) }
        ensures store { CalledOnce D.Store result.operation result.failed store.old store.new }
        ensures size { D.size store.new ≡ D.size store.old }
        ensures within { (blocks : ℕ) → result.block + result.count ≤ blocks }
    {
        let failed = store.flush().is_err();
        self.progress = or_ends(failed, Progress::Ends { status: OK });
        StoreCall {
            operation: VD_OP_FLUSH,
            block: 0,
            count: 0,
            failed,
        }
    }

    // The next unit of a write, or the status 0 where there is none.
    fn gathers_next(&self, unit: u32) -> Progress
        requires { (disk_desc_of self.now.descriptor).size ≤ most_bytes }
        ensures { (bytes : List ℕ) → progress_of result bytes ≡ gathers_next (disk_desc_of self.now.descriptor).size unit }
    {
        if self.has_next(unit) {
            Progress::Gathers { unit: unit + 1 }
        } else {
            Progress::Ends { status: OK }
        }
    }
}

// The pieces in the client's memory.
impl Work {
    /// A unit that was read is copied out.
    pub fn give_unit(
        &mut self,
        unit: u32,
        blocks: u64,
        buffer: &UnitBuffer,
        channel: &Channel,
        table: &MapTable,
        memory: &mut Memory,
    ) -> UnitCopy
        requires progress { self.old.progress ≡ kept.Gives unit }
        requires unit { IsUnit blocks unit (disk_desc_of self.old.descriptor) }
        requires pages { PagesWithin table.now (length memory.old) }
        ensures piece { PieceIn (work_with self.old buffer.now) (reach_over channel.now table.now memory.old) result
            (work_with self.new buffer.now) memory.new }
        ensures same_length { length memory.new ≡ length memory.old }
    {
        let offset = UNIT * unit as u64;
        match copy_out(
            channel,
            End::B,
            table,
            memory,
            self.cookies(),
            offset,
            buffer.bytes(),
        ) {
            Ok(()) => {
                self.progress = self.reads_next(unit);
                UnitCopy { unit, fault: None }
            }
            Err(fault) => {
                self.progress = Progress::Ends { status: EINVAL };
                UnitCopy {
                    unit,
                    fault: Some(fault),
                }
            }
        }
    }

    /// A unit is copied in.
    pub fn gather_unit(
        &mut self,
        unit: u32,
        blocks: u64,
        buffer: &mut UnitBuffer,
        channel: &Channel,
        table: &MapTable,
        memory: &Memory,
    ) -> UnitCopy
        requires progress { self.old.progress ≡ kept.Gathers unit }
        requires unit { IsUnit blocks unit (disk_desc_of self.old.descriptor) }
        requires pages { PagesWithin table.now (length memory.now) }
        ensures piece { PieceIn (work_with self.old buffer.old) (reach_over channel.now table.now memory.now) result
            (work_with self.new buffer.new) memory.now }
    {
        let offset = UNIT * unit as u64;
        let size = self.unit_size(unit, blocks);
        match buffer.copy_in(channel, table, memory, self.cookies(), offset, size) {
            Ok(()) => {
                self.progress = Progress::Writes { unit };
                UnitCopy { unit, fault: None }
            }
            Err(fault) => {
                self.progress = Progress::Ends { status: EINVAL };
                UnitCopy {
                    unit,
                    fault: Some(fault),
                }
            }
        }
    }

    // The next unit of a read, or the status 0 where there is none.
    fn reads_next(&self, unit: u32) -> Progress
        requires { (disk_desc_of self.now.descriptor).size ≤ most_bytes }
        ensures { (bytes : List ℕ) → progress_of result bytes ≡ reads_next (disk_desc_of self.now.descriptor).size unit }
    {
        if self.has_next(unit) {
            Progress::Reads { unit: unit + 1 }
        } else {
            Progress::Ends { status: OK }
        }
    }

    fn has_next(&self, unit: u32) -> bool
        requires { (disk_desc_of self.now.descriptor).size ≤ most_bytes }
        ensures next { result ≡ nat_lt (unit + 1) (unit_count (disk_desc_of self.now.descriptor).size) }
        ensures below { IsTrue result → unit + 1 < 2 ^ 32 }
    {
        let units = (self.descriptor.desc().size + UNIT - 1) / UNIT;
        unit as u64 + 1 < units
    }
}
