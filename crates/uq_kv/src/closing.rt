//! How a store is closed by a fault.
ghost use Rattle.std.specs.Prelude.{◌≡◌, Some};
ghost use Rattle.uq_kv.specs.Calls.{cause_of, stop_of};

use crate::KvFault;
use uq_model::Cause;
use uq_page::ChainFault;

/// Closes by the fault of a call on the pages, and answers it as that of the store.
pub(crate) fn close_by(closed: &mut Option<Cause>, fault: ChainFault) -> KvFault
    requires { fault ≡ ChainFault.NoPage → ⊥ }
    ensures fault { result ≡ stop_of fault }
    ensures closed { closed.new ≡ Some (cause_of fault) }
{
    let (first, fault) = match fault {
        ChainFault::Failed => (Cause::Disk, KvFault::Disk),
        ChainFault::Corrupt => (Cause::Corrupt, KvFault::Corrupt),
        ChainFault::Memory => (Cause::Memory, KvFault::Memory),
        ChainFault::NoPage => unreachable!(),
    };
    *closed = Some(first);
    fault
}
