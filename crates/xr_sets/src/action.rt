// One action, and whether it declares a user path.
ghost use Rattle.std.specs.Prelude.{◌≡◌};
ghost use Rattle.xr_model.specs.machine.Sets.{is_declared};

use arrayvec::ArrayVec;
use std::marker::Model;
use xr_types::{ActionType, MOST_LOCALIZED, MOST_NAME, USERS, User, user_place};

/// An action by its handle: its set, its name, its localized name, its type, and for each user path whether it
/// declares it. Contracts see the machine's action.
#[derive(Drop)]
pub struct Action {
    pub(crate) handle: u64,
    pub(crate) set: u64,
    pub(crate) name: ArrayVec<u8, MOST_NAME>,
    pub(crate) localized: ArrayVec<u8, MOST_LOCALIZED>,
    pub(crate) kind: ActionType,
    pub(crate) declared: [bool; USERS],
}

impl Model for Action {
    ghost use Rattle.xr_model.specs.machine.Sets as model;

    ghost Value = { model.Action };

    ghost view = { λ a. record {
      handle = a.handle;
      set = a.set;
      name = a.name.items;
      localized = a.localized.items;
      type = a.kind;
      declared = a.declared;
    } };
}

/// What stands in a place that no action has taken.
impl Default for Action {
    fn default() -> Action {
        Action {
            handle: 0,
            set: 0,
            name: ArrayVec::new(),
            localized: ArrayVec::new(),
            kind: ActionType::Boolean,
            declared: [false; USERS],
        }
    }
}

impl Action {
    pub fn handle(&self) -> u64
        ensures { result ≡ self.now.handle }
    {
        self.handle
    }

    /// The handle of its set.
    pub fn set(&self) -> u64
        ensures { result ≡ self.now.set }
    {
        self.set
    }

    /// Its type.
    pub fn kind(&self) -> ActionType
        ensures { result ≡ self.now.type }
    {
        self.kind
    }

    /// For each user path, at its `user_place`, whether it declares it.
    pub fn declared(&self) -> [bool; USERS]
        ensures { result ≡ self.now.declared }
    {
        self.declared
    }

    /// Whether the action declares a user path.
    pub(crate) fn declares(&self, user: User) -> bool
        ensures { result ≡ is_declared self.now.declared user }
    {
        self.declared[user_place(user)]
    }
}
