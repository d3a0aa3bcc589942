//! The first gate, which says whether the batches count.
ghost use Rattle.std.specs.Prelude.{[], ◌∷◌, OnOk};
ghost use Rattle.std.specs.Option.{ForSome};
ghost use Rattle.uq_outside.specs.declared.fault.FileNo.TheVariants.{Journal};
ghost use Rattle.uq_facts.specs.Causes.{HasCause};
ghost use Rattle.uq_journal.specs.Calls.{Names, is_commit_call};
ghost use Rattle.uq_outside.specs.Files.{in_file};
ghost use Rattle.uq_facts.specs.Written.{written};
ghost use Rattle.uq_outside.specs.Since.{IsSettledIn, Steps};
ghost use Rattle.uq_journal.specs.Steps.{AtGate, Becomes};

use uq_outside::{Disk, DiskFault, FileNo};

/// Sets the first gate, and syncs the journal.
pub(crate) fn set_gate<D: Disk>(disk: &mut D, gate: u8) -> Result<(), DiskFault>
    ensures steps { Steps D.Disk AtGate disk.old disk.new }
    ensures set { Becomes D.Disk (in_file Journal (written 0 (gate ∷ []))) disk.old disk.new result }
    ensures settled { OnOk result (ForSome (D.content disk.new) (IsSettledIn D.Disk disk.new Journal)) }
    ensures kind { Names is_commit_call result }
    ensures cause { HasCause (D.faults disk.old) (D.faults disk.new) result }
{
    disk.write_at(FileNo::Journal, 0, &[gate])?;
    disk.sync(FileNo::Journal)
}
