// Files that a command reads by their names.
ghost use Rattle.std.specs.Prelude.{◌≡◌, option_map, IfOk, IfSome};
ghost use Rattle.med_outside.specs.Causes.{HasCause};
ghost use Rattle.med_outside.specs.World.{FilesState};

use crate::Denied;
use std::alloc::Global;

pub trait Files {
    /// What it has under each name, where it tells, and how often a call failed.
    ghost state: { Self → FilesState };

    /// The bytes of the file of the name, and `None` exactly where there is no such file. It
    /// changes nothing.
    fn read(&mut self, alloc: Global, name: &str) -> Result<Option<Vec<u8>>, Denied>
        ensures file { IfOk result
            (λ file. IfSome ((state self.old).contents name.now)
            (λ held. option_map (λ bytes. bytes.items) file ≡ held)) }
        ensures same { (state self.new).contents ≡ (state self.old).contents }
        ensures cause { HasCause (state self.old).faults (state self.new).faults result };
}
