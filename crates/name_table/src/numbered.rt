//! Keys with numbers.

ghost use Rattle.std.specs.Prelude.{◌≡◌, ◌<◌, ◌^◌, ◌++◌, ◌∷◌, [], None, length, position, IfSome, OnErr, OnOk, if◌then◌else◌};
ghost use Rattle.std.specs.List.{IsDistinct, list_any};

use std::alloc::{AllocError, Global};
use std::collections::BTreeMap;
use std::marker::Model;
use std::snapshot::Snapshot;

/// The keys so far. Those before the last are for contracts alone, and take no memory.
#[cycle(past)]
pub(crate) enum Past<K: Copy> {
    Nothing,
    More { before: Snapshot<Past<K>>, last: K },
}

/// Keys, each with its number in the order in which they came. They are sought by their own order,
/// so that no choice of keys makes that slow. A contract sees them in the order in which they came.
pub struct Numbered<K: Ord + Copy> {
    numbers: BTreeMap<K, usize>,
    past: Past<K>,
}

impl<K: Ord + Copy> Model for Numbered<K> {
    ghost use Rattle.std.specs.Prelude.{List};
    ghost use Rattle.name_table.specs.inner.Keys.{AreNumbered, keys_in};

    ghost Value = { List K };

    ghost view = { λ n. keys_in n.past };

    ghost invariant = { λ n. AreNumbered K.cmp n.numbers.entries (keys_in n.past) };
}

impl<K: Copy> Drop for Past<K> {
    #[cycle(drop_past)]
    fn drop(self) {
        match self {
            Past::Nothing => {}
            Past::More { before: _, last: _ } => {}
        }
    }
}

impl<K: Ord + Copy> Drop for Numbered<K> {
    fn drop(self) {
        let Numbered {
            numbers: _,
            past: _,
        } = self;
    }
}

impl<K: Ord + Copy> Numbered<K> {
    /// None yet. Takes no memory.
    pub fn new(alloc: Global) -> Self
        ensures { result ≡ [] }
    {
        Numbered {
            numbers: BTreeMap::new(alloc),
            past: Past::Nothing,
        }
    }

    /// How many there are. No two are equal.
    pub fn len(&self) -> usize
        ensures len { result ≡ length self.now }
        ensures small { result < 2 ^ 63 }
        ensures distinct { IsDistinct K.eq self.now }
    {
        self.numbers.len()
    }

    /// The number of the key that is equal.
    pub fn number_of(&self, key: &K) -> Option<usize>
        ensures is { result ≡ position (K.eq key.now) self.now }
        ensures there { IfSome result (λ n. n < length self.now) }
        ensures small { IfSome result (λ n. n < 2 ^ 63) }
    {
        let _count = self.numbers.len();
        self.numbers.get(key).copied()
    }

    /// Whether a key is equal.
    pub fn contains(&self, key: &K) -> bool
        ensures { result ≡ list_any (K.eq key.now) self.now }
    {
        self.number_of(key).is_some()
    }

    /// Gives the next number to a key that is new.
    ///
    /// # Errors
    ///
    /// `AllocError`, and then nothing has changed.
    pub fn push(&mut self, key: K) -> Result<(), AllocError>
        requires { position (K.eq key) self.old ≡ None }
        ensures pushed { OnOk result (self.new ≡ self.old ++ key ∷ []) }
        ensures err { OnErr result (self.new ≡ self.old) }
    {
        let number = self.numbers.len();
        self.numbers.insert(key, number)?;
        let before = Snapshot::of(&self.past);
        self.past = Past::More { before, last: key };
        Ok(())
    }

    /// Gives the next number to a key, unless one is equal.
    ///
    /// # Errors
    ///
    /// As `push`.
    pub fn insert(&mut self, key: K) -> Result<(), AllocError>
        ensures inserted { OnOk result (self.new ≡
            (if list_any (K.eq key) self.old then self.old else self.old ++ key ∷ [])) }
        ensures err { OnErr result (self.new ≡ self.old) }
    {
        if self.contains(&key) {
            return Ok(());
        }
        self.push(key)
    }
}
