//! Sets of bytes of memory.

ghost use Rattle.std.specs.Prelude.{ℕ, ◌≡◌, ◌<◌, ◌≤◌, ◌^◌, ◌&&◌, [], IfOk, nat_lt};
ghost use Rattle.std.specs.List.{list_any};
ghost use Rattle.rv_inst.specs.Accesses.{bytes};
ghost use Rattle.log_gather.specs.Accesses.{bytes_in};
ghost use Rattle.log_gather.specs.ByteSets as sets;
ghost use Rattle.log_gather.specs.ByteSets.{AreWith, HasEach, IsBounded, IsSetOf, IsWith, any_byte, any_in, holds};
ghost use Rattle.log_gather.specs.Lookups.{bytes_if, bytes_looked_at};

use crate::accesses::Range;
use mach_types::sequences::{DESCRIPTOR_SIZE, FLAGS, RSEQ_CS};
use rseq_area::Lookups;
use std::alloc::{AllocError, Global};
use std::collections::HashSet;

/// The bytes from an address on, up to another one.
#[derive(Clone, Copy, Drop)]
pub(crate) struct Extent {
    pub(crate) at: u128,
    pub(crate) end: u128,
}

impl Extent {
    /// Whether the bytes between two addresses are all in it.
    fn covers(&self, at: u128, end: u128) -> bool
        ensures { result ≡ sets.covers at end self.now }
    {
        self.at <= at && end <= self.end
    }

    /// Whether one of the bytes between two addresses is in it.
    fn meets(&self, at: u128, end: u128) -> bool
        ensures { result ≡ sets.meets at end self.now }
    {
        self.at < end && at < self.end && self.at < self.end && at < end
    }
}

/// How many extents a set has at most: most sequences touch few bytes, over and over.
pub(crate) const MOST_EXTENTS: usize = 32;

/// A set of bytes, by their addresses.
#[derive(Drop)]
pub(crate) struct ByteSet {
    /// The first extents that were added.
    pub(crate) extents: Vec<Extent>,
    /// The bytes that were added when there were enough of them.
    pub(crate) bytes: HashSet<u128>,
    /// No byte is below this address.
    pub(crate) lowest: u128,
    /// No byte is at this address or above.
    pub(crate) end: u128,
}

impl ByteSet {
    /// The set of no bytes.
    pub(crate) fn new(alloc: Global) -> ByteSet
        ensures { IsSetOf [] result }
    {
        ByteSet {
            extents: Vec::new(alloc),
            bytes: HashSet::new(alloc),
            lowest: u128::MAX,
            end: 0,
        }
    }

    /// Whether the bytes between two addresses are all in one of its extents.
    fn covers(&self, at: u128, end: u128) -> bool
        ensures { result ≡ list_any (sets.covers at end) self.now.extents.items }
    {
        self.extents.iter().any(|extent| extent.covers(at, end))
    }

    /// Whether one of the bytes between two addresses is in one of its extents.
    fn meets(&self, at: u128, end: u128) -> bool
        ensures { result ≡ list_any (sets.meets at end) self.now.extents.items }
    {
        self.extents.iter().any(|extent| extent.meets(at, end))
    }

    /// Adds each of the bytes between two addresses by itself.
    fn add_each(&mut self, at: u128, end: u128) -> Result<(), AllocError>
        requires { at ≤ end }
        ensures { IfOk result (λ _. HasEach self.old at end self.new) }
    {
        for byte in at..end {
            self.bytes.insert(byte)?;
        }
        Ok(())
    }

    /// Adds so many bytes from an address on.
    pub(crate) fn add(&mut self, at: u128, count: u64) -> Result<(), AllocError>
        requires small { at < 2 ^ 65 }
        requires bounded { IsBounded self.old }
        ensures { IfOk result (λ _. IsWith self.old (bytes at count) self.new) }
    {
        let end = at + u128::from(count);
        if self.covers(at, end) {
            return Ok(());
        }
        self.lowest = self.lowest.min(at);
        self.end = self.end.max(end);
        if self.extents.len() < MOST_EXTENTS {
            self.extents.push(Extent { at, end })?;
            return Ok(());
        }
        self.add_each(at, end)?;
        Ok(())
    }

    /// Whether some of the bytes between two addresses are in its bounds.
    fn reaches(&self, at: u128, end: u128) -> bool
        ensures { result ≡ (nat_lt at self.now.end && nat_lt self.now.lowest end) }
    {
        at < self.end && self.lowest < end
    }

    /// Whether one of so many bytes from an address on was added by itself.
    fn has_each(&self, at: u128, count: u64) -> bool
        requires small { at < 2 ^ 65 }
        ensures { result ≡ any_byte (sets.has_each self.now) (bytes at count) }
    {
        (0..count).any(|offset| self.bytes.contains(&(at + u128::from(offset))))
    }

    /// Whether one of so many bytes from an address on is in it.
    pub(crate) fn has_any(&self, at: u128, count: u64) -> bool
        requires small { at < 2 ^ 65 }
        requires bounded { IsBounded self.now }
        ensures { result ≡ any_byte (holds self.now) (bytes at count) }
    {
        let end = at + u128::from(count);
        if !self.reaches(at, end) {
            return false;
        }
        if self.meets(at, end) {
            return true;
        }
        if self.extents.len() < MOST_EXTENTS {
            return false;
        }
        self.has_each(at, count)
    }

    /// Adds so many bytes from an address on, if there is one.
    fn add_if(&mut self, at: Option<u64>, count: u64) -> Result<(), AllocError>
        requires { IsBounded self.old }
        ensures { IfOk result (λ _. AreWith self.old (bytes_if at count) self.new) }
    {
        match at {
            Some(at) => self.add(u128::from(at), count),
            None => Ok(()),
        }
    }

    /// Whether one of so many bytes from an address on is in it, if there is one.
    fn has_any_if(&self, at: Option<u64>, count: u64) -> bool
        requires { IsBounded self.now }
        ensures { result ≡ any_in (holds self.now) (bytes_if at count) }
    {
        match at {
            Some(at) => self.has_any(u128::from(at), count),
            None => false,
        }
    }

    /// Adds the bytes of a range, if there is one.
    pub(crate) fn add_range(&mut self, range: Option<Range>) -> Result<(), AllocError>
        requires { IsBounded self.old }
        ensures { IfOk result (λ _. AreWith self.old (bytes_in range) self.new) }
    {
        match range {
            Some(range) => self.add(u128::from(range.at), u64::from(range.count)),
            None => Ok(()),
        }
    }

    /// Whether one of the bytes of a range is in it, if there is one.
    pub(crate) fn has_range(&self, range: Option<Range>) -> bool
        requires { IsBounded self.now }
        ensures { result ≡ any_in (holds self.now) (bytes_in range) }
    {
        match range {
            Some(range) => self.has_any(u128::from(range.at), u64::from(range.count)),
            None => false,
        }
    }

    /// Adds the bytes at which the check of an area looks.
    pub(crate) fn add_looked_at(&mut self, looked_at: &Lookups) -> Result<(), AllocError>
        requires { IsBounded self.old }
        ensures { IfOk result (λ _. AreWith self.old (bytes_looked_at looked_at.now) self.new) }
    {
        let area = u128::from(looked_at.area);
        self.add(area + u128::from(RSEQ_CS), 8)?;
        self.add(area + u128::from(FLAGS), 4)?;
        self.add_if(looked_at.descriptor, DESCRIPTOR_SIZE)?;
        self.add_if(looked_at.signature, 4)?;
        Ok(())
    }

    /// Whether one of the bytes at which the check of an area looks is in it.
    pub(crate) fn has_looked_at(&self, looked_at: &Lookups) -> bool
        requires { IsBounded self.now }
        ensures { result ≡ any_in (holds self.now) (bytes_looked_at looked_at.now) }
    {
        let area = u128::from(looked_at.area);
        self.has_any(area + u128::from(RSEQ_CS), 8)
            || self.has_any(area + u128::from(FLAGS), 4)
            || self.has_any_if(looked_at.descriptor, DESCRIPTOR_SIZE)
            || self.has_any_if(looked_at.signature, 4)
    }
}
