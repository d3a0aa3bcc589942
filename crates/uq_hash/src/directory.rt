//! Where the buckets begin.
ghost use Rattle.std.specs.Prelude.{◌≡◌, ◌+◌, ◌≤◌, true, IfOk};
ghost use Rattle.uq_facts.specs.Causes.{UnlessErr};
ghost use Rattle.uq_hash.specs.Begins.{Begins, BeginsOnly};
ghost use Rattle.uq_hash.specs.Causes.{HasMapCause};

use uq_page::{ChainFault, Header, Pages};

/// The first page of a key's bucket.
pub(crate) fn first_page<P: Pages>(_p: &mut P, h: &Header, _key: &[u8]) -> Result<u32, ChainFault>
    requires { P.is_sound _p.old ≡ true }
    ensures begins { IfOk result (λ first. Begins (P.pages _p.old) h.now _key.now first) }
    ensures same { UnlessErr ChainFault.Failed result (P.pages _p.new ≡ P.pages _p.old) }
    ensures size { P.size _p.new ≡ P.size _p.old }
    ensures asked { P.asked _p.new ≤ P.asked _p.old + 3 }
    ensures reads { P.only_reads _p.old _p.new }
    ensures cause { HasMapCause (P.pages _p.old) h.now (P.faults _p.old) (P.faults _p.new) (P.is_sound _p.new) result }
{
    Ok(h.root)
}

/// The first page of the bucket that has all keys.
pub(crate) fn only_page<P: Pages>(_p: &mut P, h: &Header) -> Result<u32, ChainFault>
    requires { P.is_sound _p.old ≡ true }
    ensures begins { IfOk result (λ first. BeginsOnly (P.pages _p.old) h.now first) }
    ensures same { UnlessErr ChainFault.Failed result (P.pages _p.new ≡ P.pages _p.old) }
    ensures size { P.size _p.new ≡ P.size _p.old }
    ensures reads { P.only_reads _p.old _p.new }
    ensures cause { HasMapCause (P.pages _p.old) h.now (P.faults _p.old) (P.faults _p.new) (P.is_sound _p.new) result }
{
    Ok(h.root)
}
