// A list whose room is taken once.
ghost use Rattle.std.specs.Prelude.{◌≡◌, ◌<◌, [], ◌∷◌, ◌++◌, length, IfOk};

use std::alloc::Global;
use std::marker::Model;
use xr_types::NoMemory;

/// A list with room for so many items, which is taken once and kept. Contracts see its items.
#[derive(Drop)]
pub(crate) struct Room<T, const N: usize> {
    list: Vec<T>,
}

impl<T, const N: usize> Model for Room<T, N> {
    ghost use Rattle.std.specs.Prelude.{◌≡◌, List, vec_capacity};

    ghost Value = { List T };

    ghost view = { λ r. r.list.items };

    ghost invariant = { λ r. vec_capacity r.list ≡ N };
}

impl<T: Drop, const N: usize> Room<T, N> {
    /// An empty list.
    pub(crate) fn start(alloc: Global) -> Result<Room<T, N>, NoMemory>
        ensures { IfOk result (λ room. room ≡ []) }
    {
        let list = Vec::with_capacity(alloc, N)?;
        Ok(Room { list })
    }

    pub(crate) fn clear(&mut self)
        ensures { self.new ≡ [] }
    {
        self.list.clear();
    }

    pub(crate) fn push(&mut self, item: T)
        requires { length self.old < N }
        ensures { self.new ≡ self.old ++ item ∷ [] }
    {
        self.list.push_reserved(item);
    }

    pub(crate) fn as_slice(&self) -> &[T]
        ensures { result.now ≡ self.now }
    {
        self.list.as_slice()
    }
}
