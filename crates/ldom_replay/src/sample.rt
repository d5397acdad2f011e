// The run of a sample script.
ghost use Rattle.std.specs.Prelude.{◌≡◌, ◌≢◌, ◌<◌, codes, IfOk};
ghost use Rattle.vio_io.specs.Given.{Gave};
ghost use Rattle.ldom_sample.specs.Sample.{sample_text};
ghost use Rattle.vio_io.specs.Causes.{Fails};
ghost use Rattle.ldom_words.specs.Words.{sample_count};
ghost use Rattle.script_laws.specs.Sized.{SizeIs};
ghost use Rattle.disk_law.specs.ListState.{as_image};
ghost use Rattle.ldom_world.specs.world_parts.Declared.{bytes_needed};
ghost use Rattle.ldom_replay.specs.Sampled.{SampleReplayed};

use crate::run::{Run, run_script};
use infallible_io::InfallibleSource;
use ldom_report::Status;
use ldom_sample::sample_script;
use std::alloc::Global;
use vio_bytes::NoMemory;
use vio_io::Host;

/// Runs the sample script of a number over zeros. The run has an image exactly where the host gave one.
pub fn run_sample<H: Host>(alloc: Global, number: u32, host: &mut H) -> Run<H::Disk>
    requires { number < sample_count }
    ensures replayed { SampleReplayed number (as_image H.Disk.Store)
        (H.gives host.old (codes "-")) result.status result.lines result.names result.journal.entries result.image
        result.lanes }
    ensures sized { SizeIs H.Disk.size result.status (bytes_needed result.names.disks)
        (H.gives host.old (codes "-") (bytes_needed result.names.disks)) result.image }
    ensures source { result.status ≢ Status.SourceFault }
    ensures host { Fails (result.status ≡ Status.HostFault) (H.faults host.old) (H.faults host.new) }
    ensures image { Gave (H.given host.old) (H.given host.new) result.image }
{
    match sample_source(alloc, number) {
        Ok(mut source) => run_script(alloc, "-", host, &mut source),
        Err(NoMemory) => Run::without_memory(alloc),
    }
}

/// The sample script of a number, as a source that can't fail.
fn sample_source(alloc: Global, number: u32) -> Result<InfallibleSource, NoMemory>
    requires { number < sample_count }
    ensures { IfOk result (λ source. source ≡ sample_text number) }
{
    let script = sample_script(alloc, number)?.to_vec(alloc)?;
    InfallibleSource::new(alloc, &script)
}
