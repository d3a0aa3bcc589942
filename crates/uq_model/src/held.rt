//! Collections in memory, with how much they hold.

ghost use Rattle.std.specs.Prelude.{◌≡◌};
ghost use Rattle.uq_model.specs.Full.{sums};
ghost use Rattle.uq_model.specs.IsStore.{IsStore, IsStore-prop};
ghost use Rattle.uq_model.specs.Store.{store_of};

use crate::change::Plan;
use crate::changing::change_collections;
use crate::collection::Collection;
use crate::tables::ByName;
use std::alloc::Global;
use uq_value::NoMemory;

/// A store without keys.
#[derive(Drop)]
pub struct Held {
    pub(crate) collections: ByName<Collection>,
    /// How many entries it has.
    pub(crate) entries: u64,
    /// How many bytes they take.
    pub(crate) bytes: u64,

    ghost counted: { entries ≡ (sums (store_of collections)).entries },
    ghost measured: { bytes ≡ (sums (store_of collections)).bytes },
    ghost is_store: { IsStore (store_of collections) } by { IsStore-prop (store_of collections) },
}

impl Held {
    ghost use Rattle.std.specs.Prelude.{IfOk};
    ghost use Rattle.uq_model.specs.Change.{IsPlanned, changed};
    ghost use Rattle.uq_model.specs.Held.{held_in};
    ghost use Rattle.uq_model.specs.Store.{empty};

    /// The empty store, which takes no memory yet.
    pub fn new(alloc: Global) -> Held
        ensures { held_in result ≡ empty }
    {
        Held {
            collections: ByName::new(alloc),
            entries: 0,
            bytes: 0,
        }
    }

    /// The same store, in memory of its own.
    pub fn copy(&self, alloc: Global) -> Result<Held, NoMemory>
        ensures { IfOk result (λ held. held_in held ≡ held_in self.now) }
    {
        let collections = self.collections.copy(alloc)?;
        Ok(Held {
            collections,
            entries: self.entries,
            bytes: self.bytes,
        })
    }

    /// The store that a planned write makes of this one, which is given up where memory is wanting.
    pub fn changed(self, alloc: Global, name: &[u8], plan: Plan) -> Result<Held, NoMemory>
        requires { IsPlanned name.now (held_in self) plan }
        ensures { IfOk result (λ held. held_in held ≡ changed name.now plan.change (held_in self)) }
    {
        let Held {
            mut collections,
            ..
        } = self;
        let Plan {
            change,
            entries,
            bytes,
        } = plan;
        change_collections(alloc, &mut collections, name, change)?;
        Ok(Held {
            collections,
            entries,
            bytes,
        })
    }
}
