//! What an opening does on the disk.
ghost use Rattle.std.specs.Prelude.{◌≡◌, IfOk, OnOk};
ghost use Rattle.std.specs.Option.{ForSome};
ghost use Rattle.uq_facts.specs.Causes.{AtErr, HasCauseAt};
ghost use Rattle.uq_outside.specs.Stops.{ToldAlike};
ghost use Rattle.uq_journal.specs.Calls.{KeepsFilesAtGate, KeepsMainWhereClosed, KeepsRecovered};
ghost use Rattle.uq_kv.specs.Holds.{HasShape, HoldsNone, RecoversTo};
ghost use Rattle.uq_kv.specs.Opening.{Finds, IsLeftBy};
ghost use Rattle.uq_kv.specs.Stored.{Stored};

use crate::{OpenFault, Ready};
use std::alloc::Global;
use uq_outside::Disk;
use uq_page::{Header, Page, read_header};

/// How many pages that no one changed are kept in memory.
const CACHE: u32 = 1024;

/// The header of pages of which there are none.
const NO_PAGES: Header = Header {
    version: 0,
    pages: 0,
    buckets: 1,
    free: 0,
    root: 0,
    entries: 0,
    bytes: 0,
};

/// Recovers the files, and says what a store over them begins with. Files that hold no store still recover to what
/// they recovered to.
pub fn recover<D: Disk>(alloc: Global, disk: &mut D) -> Result<Ready, OpenFault>
    ensures ready { IfOk result (λ ready. IsLeftBy D.Disk ready disk.new) }
    ensures found { IfOk result (λ ready. ForSome (D.content disk.old) (λ start. (stored : Stored) → RecoversTo stored start → Finds D.Disk ready disk.new stored)) }
    // Ok comes only over an empty main file, or over whole pages whose first is a header that names their number.
    ensures shape { OnOk result (ForSome (D.content disk.old) HasShape) }
    ensures not_database { AtErr OpenFault.NotDatabase result (HoldsNone D.Disk disk.old) }
    ensures alike { ToldAlike (D.content disk.old) (D.content disk.new) }
    // Where no batch is open, nothing is written to the main file.
    ensures closed { KeepsMainWhereClosed D.Disk disk.old disk.new }
    // Where the journal is one closed gate, nothing is written at all.
    ensures gate { KeepsFilesAtGate D.Disk disk.old disk.new }
    // Whatever it answers, a stop within leaves files that recover to what they recovered to.
    ensures stop { KeepsRecovered D.Disk disk.old disk.new }
    ensures cause { HasCauseAt OpenFault.Disk (D.faults disk.old) (D.faults disk.new) result }
{
    let pager = uq_pager::recover(alloc, disk, CACHE)?;
    let count = pager.count();
    if count == 0 {
        return Ok(Ready {
            pager,
            header: NO_PAGES,
        });
    }
    let mut page = Page::zero();
    pager.read_page(disk, 0, &mut page)?;
    let Some(header) = read_header(&page) else {
        return Err(OpenFault::NotDatabase);
    };
    if header.pages != count {
        return Err(OpenFault::NotDatabase);
    }
    Ok(Ready { pager, header })
}
