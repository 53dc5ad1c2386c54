//! The hashes by which a rule is found.
ghost use Rattle.std.specs.Prelude.{◌≡◌, ◌<◌, ◌≤◌, ◌+◌, ◌-◌, ◌++◌, ◌∷◌, [], ℕ, OnErr, OnOk, length, slice_index_or, take};
ghost use Rattle.std.specs.Vec.{vec_capacity};
ghost use Rattle.ivl_network.specs.Hashes.{AreHashLists, AreInBuckets, HasHashRoom, IsLastIn, bucket_of};

use std::alloc::{AllocError, Global};

/// The hashes of a list, and for each the one before it in its bucket. A place is one more than an index, and 0 is none.
#[derive(Drop)]
pub(super) struct Hashes {
    hashes: Vec<u64>,
    // The place before each in its bucket.
    links: Vec<usize>,
    // The place of the last in each bucket.
    lasts: Vec<usize>,
}

impl Hashes {
    pub(super) fn new(alloc: Global) -> Hashes
        ensures empty { result.hashes.items ≡ [] }
        ensures lists { AreHashLists result }
    {
        Hashes {
            hashes: Vec::new(alloc),
            links: Vec::new(alloc),
            lasts: Vec::new(alloc),
        }
    }

    /// Reserves room for so many more.
    pub(super) fn reserve(&mut self, count: usize) -> Result<(), AllocError>
        requires { AreHashLists self.old }
        ensures lists { AreHashLists self.new }
        ensures same { self.new.hashes.items ≡ self.old.hashes.items }
        ensures room { OnOk result (0 < count → HasHashRoom self.new) }
    {
        self.hashes.reserve(count)?;
        self.links.reserve(count)?;
        let wanted = self.hashes.len().saturating_add(count);
        if wanted <= self.lasts.len() {
            return Ok(());
        }
        self.lasts = Vec::from_elem(*self.lasts.allocator(), 0, wanted.saturating_mul(2))?;
        self.link_all();
        Ok(())
    }

    /// Links all, where no bucket has any.
    fn link_all(&mut self)
        requires none { AreInBuckets 0 self.old.hashes.items self.old.links.items self.old.lasts.items }
        requires some { 0 < length self.old.lasts.items }
        ensures lists { AreHashLists self.new }
        ensures same { self.new.hashes ≡ self.old.hashes }
        ensures capacity { vec_capacity self.new.links ≡ vec_capacity self.old.links }
        ensures buckets { length self.new.lasts.items ≡ length self.old.lasts.items }
    {
        for k in 0..self.hashes.len() {
            self.link(k);
        }
    }

    /// Links one more.
    fn link(&mut self, k: usize)
        requires linked { AreInBuckets k self.old.hashes.items self.old.links.items self.old.lasts.items }
        requires known { k < length self.old.hashes.items }
        requires some { 0 < length self.old.lasts.items }
        ensures linked { AreInBuckets (k + 1) self.new.hashes.items self.new.links.items self.new.lasts.items }
        ensures same { self.new.hashes ≡ self.old.hashes }
        ensures capacity { vec_capacity self.new.links ≡ vec_capacity self.old.links }
        ensures buckets { length self.new.lasts.items ≡ length self.old.lasts.items }
    {
        let bucket = bucket(self.hashes[k], self.lasts.len());
        self.links[k] = self.lasts[bucket];
        self.lasts[bucket] = k + 1;
    }

    /// Adds a hash after the others.
    pub(super) fn push(&mut self, hash: u64)
        requires lists { AreHashLists self.old }
        requires room { HasHashRoom self.old }
        ensures lists { AreHashLists self.new }
        ensures added { self.new.hashes.items ≡ self.old.hashes.items ++ hash ∷ [] }
    {
        let k = self.hashes.len();
        self.hashes.push_reserved(hash);
        self.links.push_reserved(0);
        self.link(k);
    }

    /// Drops the last, if there is one.
    pub(super) fn pop(&mut self)
        requires lists { AreHashLists self.old }
        ensures lists { AreHashLists self.new }
        ensures left { self.new.hashes.items ≡ take (length self.old.hashes.items - 1) self.old.hashes.items }
    {
        let count = self.hashes.len();
        if count == 0 {
            return;
        }
        let bucket = bucket(self.hashes[count - 1], self.lasts.len());
        self.lasts[bucket] = self.links[count - 1];
        self.hashes.truncate(count - 1);
        self.links.truncate(count - 1);
    }

    /// The place of the last in the bucket of a hash.
    pub(super) fn last(&self, hash: u64) -> usize
        requires lists { AreHashLists self.now }
        ensures { IsLastIn self.now.hashes.items (length self.now.lasts.items) (bucket_of (length self.now.lasts.items) hash) (length self.now.hashes.items) result }
    {
        if self.hashes.is_empty() {
            return 0;
        }
        self.lasts[bucket(hash, self.lasts.len())]
    }

    /// The place before this one in its bucket.
    #[inline]
    pub(super) fn before(&self, place: usize) -> usize
        requires { (0 < place) × (place ≤ length self.now.links.items) }
        ensures { result ≡ slice_index_or self.now.links.items (place - 1) 0 }
    {
        self.links[place - 1]
    }
}

/// The bucket of a hash, of so many.
fn bucket(hash: u64, buckets: usize) -> usize
    requires { 0 < buckets }
    ensures bucket { result ≡ bucket_of buckets hash }
    ensures within { result < buckets }
{
    (hash % buckets as u64) as usize
}
