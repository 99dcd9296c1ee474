// The names that the ops of a script have given, each with the latest op that gave it.
ghost use Rattle.std.specs.Prelude.{◌≡◌, [], ◌∷◌, ◌++◌, OnOk, IfSome, None};
ghost use Rattle.std.specs.List.{find};
ghost use Rattle.std.specs.Str.{bytes_eq};
ghost use Rattle.xr_model.specs.scenario.ScriptForm.{IsKnownPlace};
ghost use Rattle.xr_model.specs.scenario.Names.{given, place_named};
ghost use Rattle.xr_scenario_fields.specs.Given.{known_of, place_by};

use std::alloc::{AllocError, Global};
use std::collections::BTreeMap;
use std::marker::Model;
use xr_types::Sort;

/// An op that gave a name: the name, the op's place in the script and what the name stands for.
#[derive(Clone, Copy)]
pub(crate) struct Giver<'v> {
    pub(crate) name: &'v str,
    pub(crate) place: u32,
    pub(crate) sort: Sort,
}

/// The names that ops have given, each with the place and the sort of the latest op that gave it. Looking one up takes
/// as many comparisons as the count of the names has binary digits, whatever the names: no script can make it slow.
#[derive(Drop)]
pub struct NamedOps<'v> {
    givers: Vec<Giver<'v>>,
    // where the giver of each name stands
    places: BTreeMap<&'v str, usize>,
}

impl<'v> Model for NamedOps<'v> {
    ghost use Rattle.std.specs.Prelude.{List, map};
    ghost use Rattle.xr_model.specs.scenario.Names.{NamedOp};
    ghost use Rattle.xr_scenario_fields.specs.Given.{known_of, Finds};

    ghost Value = { List NamedOp };

    ghost view = { λ names. map known_of names.givers.items };

    ghost invariant = { λ names. Finds names.places names.givers.items };
}

impl<'v> NamedOps<'v> {
    /// No name is known. Takes no memory.
    pub fn new(alloc: Global) -> NamedOps<'v>
        ensures { result ≡ [] }
    {
        NamedOps {
            givers: Vec::new(alloc),
            places: BTreeMap::new(alloc),
        }
    }

    /// A name that no op gave before.
    fn add(&mut self, giver: Giver<'v>) -> Result<(), AllocError>
        requires new { find (λ k. bytes_eq giver.name.now k.name) self.old ≡ None }
        ensures { OnOk result (self.new ≡ self.old ++ known_of giver.entry ∷ []) }
    {
        let place = self.givers.len();
        self.givers.push(giver)?;
        match self.places.insert(giver.name, place) {
            Ok(_) => Ok(()),
            Err(_) => {
                let _ = self.givers.pop();
                Err(AllocError)
            }
        }
    }

    /// The op at this place gives a name. Nothing is said of the names where memory was short.
    pub fn give(&mut self, name: &'v str, place: u32, sort: Sort) -> Result<(), AllocError>
        ensures { OnOk result (self.new ≡ given name.entry.now place sort self.old) }
    {
        let Some(known) = self.places.get(name) else {
            return self.add(Giver { name, place, sort });
        };
        let giver = &mut self.givers[*known];
        giver.place = place;
        giver.sort = sort;
        Ok(())
    }

    /// The place of the latest op that gave a name, where it is of this sort.
    pub fn place_of(&self, name: &str, sort: Sort) -> Option<u32>
        ensures { result ≡ place_named sort name.now self.now }
    {
        match self.places.get(name) {
            Some(known) => of_sort(&self.givers[*known], sort),
            None => None,
        }
    }
}

/// The place of an op, where its name is of this sort.
fn of_sort(giver: &Giver<'_>, sort: Sort) -> Option<u32>
    ensures { result ≡ place_by sort giver.now }
{
    if giver.sort == sort {
        Some(giver.place)
    } else {
        None
    }
}

/// The place of an op that gave a name of this sort.
#[tactic(auto, using(crate::proofs::KnownNames::known_place))]
pub(crate) fn known_place(named_ops: &NamedOps<'_>, name: &str, sort: Sort) -> Option<u32>
    ensures place { result ≡ place_named sort name.now named_ops.now }
    ensures known { IfSome result (λ place. IsKnownPlace named_ops.now sort place) }
{
    named_ops.place_of(name, sort)
}
