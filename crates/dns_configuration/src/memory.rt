//! Files in memory.

ghost use Rattle.std.specs.Prelude.{◌≡◌, Some, IfOk};
ghost use Rattle.std.specs.Option.{option_copied};
ghost use Rattle.dns_keeper.specs.Keeping.{HasCause};
ghost use Rattle.dns_configuration.specs.Files.{text_at, ReadsNext};

use crate::files::Files;
use crate::path_text::PathText;
use dns_io::Octets;
use dns_keeper::KeepFault;
use std::alloc::Global;
use std::marker::Model;

/// Files in memory, which are always told. Chosen reads of them can be made to fail.
#[derive(Drop)]
pub struct MemoryFiles {
    alloc: Global,
    files: Vec<(PathText, Octets)>,
    failing_reads: Vec<u64>,
    reads: u64,
    faults: u64,
}

impl Model for MemoryFiles {
    ghost use Rattle.dns_configuration.specs.Files.{FilesState};

    ghost Value = { FilesState };

    ghost view = { λ f. record { files = f.files.items; failing_reads = f.failing_reads.items; reads = f.reads; faults = f.faults } };
}

impl MemoryFiles {
    /// Files with these paths and texts; of two with one path the first counts. The reads are counted from 1, and those
    /// whose numbers stand in `failing_reads` fail; the count of faults rises by one at each of them, and nowhere else.
    pub fn new(
        alloc: Global,
        files: Vec<(PathText, Octets)>,
        failing_reads: Vec<u64>,
    ) -> MemoryFiles
        ensures { result ≡ record { files = files.items; failing_reads = failing_reads.items; reads = 0; faults = 0 } }
    {
        MemoryFiles {
            alloc,
            files,
            failing_reads,
            reads: 0,
            faults: 0,
        }
    }
}

impl Files for MemoryFiles {
    ghost files = { λ f. Some f.files };

    ghost faults = { λ f. f.faults };

    fn read_file(&mut self, path: &str) -> Result<Option<Octets>, KeepFault>
        ensures found { IfOk result (λ found. found ≡ text_at self.new.files path.now) }
        ensures kept { self.new.files ≡ self.old.files }
        ensures cause { HasCause self.old.faults self.new.faults result }
        ensures next { ReadsNext self.old path.now result self.new }
    {
        self.reads = self.reads.saturating_add(1);
        if self.failing_reads.contains(&self.reads) {
            self.faults = self.faults.saturating_add(1);
            return Err(KeepFault::Failed);
        }
        match text_at(self.files.as_slice(), path) {
            None => Ok(None),
            Some(text) => Ok(Some(Octets::from_slice(self.alloc, text.as_slice())?)),
        }
    }
}

/// The text at a path, where there is one: that of the first file with this path.
fn text_at<'a>(files: &'a [(PathText, Octets)], path: &str) -> Option<&'a Octets>
    ensures { option_copied result ≡ text_at files.now path.now }
{
    for (own, text) in files {
        if own.as_str() == path {
            return Some(text);
        }
    }
    None
}
