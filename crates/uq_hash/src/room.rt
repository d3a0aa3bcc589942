//! The room that a change needs.
ghost use Rattle.std.specs.Prelude.{◌≡◌};
ghost use Rattle.uq_hash.specs.Causes.{fault_without_room};

use uq_page::ChainFault;

/// The fault of a change that needs pages. Pages that hold a map have enough free ones, also where there can
/// be no more, so that those with too few hold none.
pub(crate) fn without_room(fault: ChainFault) -> ChainFault
    ensures { result ≡ fault_without_room fault }
{
    match fault {
        ChainFault::NoPage => ChainFault::Corrupt,
        other => other,
    }
}
