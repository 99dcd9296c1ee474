// Texts and lists of their own: contracts see them as lists, whatever room they keep.
ghost use Rattle.std.specs.Prelude.{◌≡◌, IfOk};

use std::alloc::{AllocError, Global};
use std::marker::Model;

/// Bytes, seen by contracts as the list of them.
#[derive(Drop)]
pub struct Bytes {
    kept: Vec<u8>,
}

impl Model for Bytes {
    ghost use Rattle.std.specs.Prelude.{List, ℕ};

    ghost Value = { List ℕ };

    ghost view = { λ b. b.kept.items };
}

impl Bytes {
    /// The bytes of a `Vec`. Takes no memory.
    pub fn new(bytes: Vec<u8>) -> Bytes
        ensures { result ≡ bytes.items }
    {
        Bytes { kept: bytes }
    }

    /// A copy of a text.
    pub fn from_slice(alloc: Global, text: &[u8]) -> Result<Bytes, AllocError>
        ensures { IfOk result (λ bytes. bytes ≡ text.now) }
    {
        let kept = text.to_vec(alloc)?;
        Ok(Bytes { kept })
    }

    pub fn as_slice(&self) -> &[u8]
        ensures { result.now ≡ self.now }
    {
        self.kept.as_slice()
    }

    /// Gives the bytes back. Takes no memory.
    pub fn into_vec(self) -> Vec<u8>
        ensures { result.items ≡ self }
    {
        let Bytes { kept } = self;
        kept
    }
}

/// A list, seen by contracts as its items.
#[derive(Drop)]
pub struct Several<T> {
    items: Vec<T>,
}

impl<T> Model for Several<T> {
    ghost use Rattle.std.specs.Prelude.{List};

    ghost Value = { List T };

    ghost view = { λ l. l.items.items };
}

impl<T> Several<T> {
    /// The list of a `Vec`. Takes no memory.
    pub fn new(items: Vec<T>) -> Several<T>
        ensures { result ≡ items.items }
    {
        Several { items }
    }

    pub fn as_slice(&self) -> &[T]
        ensures { result.now ≡ self.now }
    {
        self.items.as_slice()
    }

    /// Gives the items back. Takes no memory.
    pub fn into_vec(self) -> Vec<T>
        ensures { result.items ≡ self }
    {
        let Several { items } = self;
        items
    }
}

/// A borrowed list, seen by contracts as its items.
#[derive(Drop)]
pub struct Items<'a, T> {
    items: &'a [T],
}

impl<'a, T> Model for Items<'a, T> {
    ghost use Rattle.std.specs.Prelude.{List};

    ghost Value = { List T };

    ghost view = { λ l. l.items.now };
}

impl<'a, T> Items<'a, T> {
    /// The list of a slice.
    pub fn new(items: &'a [T]) -> Items<'a, T>
        ensures { result ≡ items.now }
    {
        Items { items }
    }

    pub fn as_slice(&self) -> &'a [T]
        ensures { result.now ≡ self.now }
    {
        self.items
    }
}
