// Entries kept strictly rising by key, and found by halving. All memory is got when the table is made, so that no later call can
// fail for want of it.
ghost use Rattle.std.specs.Prelude.{◌≡◌, IfOk, OnOk, Some, None};
ghost use Rattle.std.specs.Option.{option_copied};
ghost use Rattle.ordered.specs.Tables.{empty, at, put_answer, put_in, Puts, without, Removes, Changes, IsKept};

use crate::search::find;
use std::alloc::{AllocError, Global};
use std::marker::Model;
use std::mem;

#[derive(Drop)]
pub struct OrderedTable<K: Ord, V> {
    rows: Vec<(K, V)>,
    most: usize,
}

impl<K: Ord, V> Model for OrderedTable<K, V> {
    ghost use Rattle.std.specs.Prelude.{◌≤◌, vec_len, vec_capacity};
    ghost use Rattle.std.specs.List.Sorted.{IsStrictlySortedBy};
    ghost use Rattle.std.specs.Map.{keys_of};
    ghost use Rattle.ordered.specs.Tables.{Table};

    ghost Value = { Table K V };

    ghost view = { λ t. record { entries = t.rows.items; most = t.most } };

    ghost invariant = { λ t. IsStrictlySortedBy K.cmp (keys_of t.rows.items)
        × (vec_len t.rows ≤ t.most) × (t.most ≤ vec_capacity t.rows) };
}

impl<K: Ord, V> OrderedTable<K, V> {
    // A table without entries, for `most` of them.
    pub fn new(alloc: Global, most: usize) -> Result<OrderedTable<K, V>, AllocError>
    where
        K: Drop,
        V: Drop,
        ensures empty { IfOk result (λ t. t ≡ empty most) }
        ensures kept { IfOk result (IsKept K.cmp) }
    {
        Ok(OrderedTable {
            rows: Vec::with_capacity(alloc, most)?,
            most,
        })
    }

    // The entries, in the order of their keys.
    pub fn rows(&self) -> &[(K, V)]
        ensures entries { result.now ≡ self.now.entries }
        ensures kept { IsKept K.cmp self.now }
    {
        self.rows.as_slice()
    }

    // The value under the key.
    pub fn get(&self, key: &K) -> Option<&V>
        ensures { option_copied result ≡ at K.cmp self.now key.now }
    {
        match find(&self.rows, key) {
            Ok(i) => Some(&self.rows[i].1),
            Err(_) => None,
        }
    }

    // Puts the value under the key, and gives back the one that stood there. A full table gives a new key and its value back.
    #[tactic(auto, using(crate::proofs::Laws::put_law, crate::proofs::Laws::kept_put))]
    pub fn put(&mut self, key: K, value: V) -> Result<Option<V>, (K, V)>
    where
        K: Drop,
        V: Drop,
        ensures answer { result ≡ put_answer K.cmp self.old key value }
        ensures after { self.new ≡ put_in K.cmp self.old key value }
        ensures law { OnOk result (Changes K.cmp self.old key (Some value) self.new) }
        ensures kept { IsKept K.cmp self.new }
    {
        self.place(key, value)
    }

    // The steps of `put`, which adds what they mean for a map.
    fn place(&mut self, key: K, value: V) -> Result<Option<V>, (K, V)>
    where
        K: Drop,
        V: Drop,
        ensures steps { Puts K.cmp self.old key value result self.new }
        ensures was_kept { IsKept K.cmp self.old }
    {
        match find(&self.rows, &key) {
            Ok(i) => Ok(Some(mem::replace(&mut self.rows[i].1, value))),
            Err(_) if self.rows.len() >= self.most => Err((key, value)),
            Err(i) => {
                let _ = self.rows.insert(i, (key, value));
                Ok(None)
            }
        }
    }

    // Takes the entry under the key away, and gives its value.
    #[tactic(auto, using(crate::proofs::Laws::remove_law, crate::proofs::Laws::kept_without))]
    pub fn remove(&mut self, key: &K) -> Option<V>
    where
        K: Drop,
        ensures answer { result ≡ at K.cmp self.old key.now }
        ensures after { self.new ≡ without K.cmp self.old key.now }
        ensures law { Changes K.cmp self.old key.now None self.new }
        ensures kept { IsKept K.cmp self.new }
    {
        self.take(key)
    }

    // The steps of `remove`, which adds what they mean for a map.
    fn take(&mut self, key: &K) -> Option<V>
    where
        K: Drop,
        ensures steps { Removes K.cmp self.old key.now result self.new }
        ensures was_kept { IsKept K.cmp self.old }
    {
        match find(&self.rows, key) {
            Ok(i) => {
                let (_, value) = self.rows.remove(i);
                Some(value)
            }
            Err(_) => None,
        }
    }
}
