//! Files that are read whole.

ghost use Rattle.std.specs.Prelude.{◌≡◌, IfOk};

use dns_io::Octets;
use dns_keeper::KeepFault;

/// Files with their texts, each at a path.
pub trait Files {
    ghost use Rattle.std.specs.Prelude.{ℕ, List, Option};
    ghost use Rattle.dns_io.specs.Told.{Keeps};
    ghost use Rattle.dns_keeper.specs.Keeping.{HasCause};
    ghost use Rattle.dns_configuration.specs.Files.{File, IsTextAt};

    /// The files, where they are told. An object may stop telling them at any call, and then never tells them again.
    ghost files: { Self → Option (List File) };

    /// How often a call failed, up to `u64::MAX`.
    ghost faults: { Self → ℕ };

    /// The text at a path: none exactly where there is none.
    fn read_file(&mut self, path: &str) -> Result<Option<Octets>, KeepFault>
        ensures found { IfOk result (IsTextAt (files self.new) path.now) }
        ensures kept { Keeps (files self.old) (files self.new) }
        ensures cause { HasCause (faults self.old) (faults self.new) result };
}
