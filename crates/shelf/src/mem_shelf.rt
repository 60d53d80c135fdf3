//! A shelf in memory, for tests.
ghost use Rattle.std.specs.Prelude.{◌≡◌, ◌⊎◌, [], List, Some, IfOk, OnOk, OnErr, IsErrOf, IsTrue, IsFalse, ◌↔◌, ◌+◌, ◌≤◌, vec_len, refl, option_copied, find, position, string_bytes};
ghost use Rattle.std.specs.Str.{bytes_eq};
ghost use Rattle.std.specs.FinMap as map;
ghost use Rattle.shelf.specs.Calls.{uncalled, called, faulted, is_failing};
ghost use Rattle.shelf.specs.Faults.{HasRisen};
ghost use Rattle.shelf.specs.MemShelf.{files_of, fails_take, after_take, after_put};
ghost use Rattle.shelf.specs.Shelf.{IfLong, HoldsAtLeast};

use crate::calls::{Calls, first_half};
use crate::fault::{PutFault, TakeFault};
use crate::shelf::Shelf;
use rt_base::Memory;
use std::alloc::Global;
use std::marker::Model;

/// Files in memory. The calls with the given numbers fail, counted from 0 over takes and puts alike.
/// A take of a name that is not held fails, too. A put that fails leaves the first half of the bytes,
/// rounded down. Where no further fault can be counted, a call that fails answers want of memory and
/// leaves the files as they are. It tells its files, and is sure where no call fails.
#[derive(Drop)]
pub struct MemShelf {
    alloc: Global,
    files: Vec<(String, Vec<u8>)>,
    calls: Calls,
}

impl Model for MemShelf {
    ghost use Rattle.shelf.specs.MemShelf.{ShelfState, shelf_code, files_of};

    ghost Value = { ShelfState };

    ghost coded = { shelf_code };

    ghost view = { λ s. record { files = files_of s.files.items; calls = s.calls } };
}

/// The place of the first file with this name.
fn place_of(files: &[(String, Vec<u8>)], name: &str) -> Option<usize>
    ensures { result ≡ position (λ file. bytes_eq name.now (string_bytes file.0)) files.now }
{
    files.iter().position(|file| name == file.0.as_str())
}

/// The first file with this name.
fn file_of<'a>(files: &'a [(String, Vec<u8>)], name: &str) -> Option<&'a (String, Vec<u8>)>
    ensures { option_copied result ≡ find (λ file. bytes_eq name.now (string_bytes file.0)) files.now }
{
    files.iter().find(|file| name == file.0.as_str())
}

/// The bytes of the first file with this name.
fn bytes_of<'a>(files: &'a [(String, Vec<u8>)], name: &str) -> Option<&'a [u8]>
    ensures { option_copied result ≡ map.get (files_of files.now) name.now }
{
    file_of(files, name).map(|file| file.1.as_slice())
}

/// A copy of any bytes.
fn copy_of(alloc: Global, bytes: &[u8]) -> Result<Vec<u8>, Memory>
    ensures { IfOk result (λ copy. copy.items ≡ bytes.now) }
{
    Ok(Vec::from_slice(alloc, bytes)?)
}

/// Puts bytes under a name, in place of those that it held.
fn store(
    files: &mut Vec<(String, Vec<u8>)>,
    alloc: Global,
    name: &str,
    bytes: &[u8],
) -> Result<(), Memory>
    ensures ok { OnOk result (files_of files.new.items ≡ map.insert (files_of files.old.items) name.now bytes.now) }
    ensures err { OnErr result (files_of files.new.items ≡ files_of files.old.items) }
{
    let copy = copy_of(alloc, bytes)?;
    match place_of(files, name) {
        Some(place) => files[place].1 = copy,
        None => files.push((String::from_str(alloc, name)?, copy))?,
    }
    Ok(())
}

/// Why a take that fails gives no bytes: a fault, or want of memory where none can be counted.
fn take_fault(calls: &mut Calls) -> TakeFault
    ensures failed { (result ≡ TakeFault.Failed) ↔ HasRisen calls.old.faults calls.new.faults }
    ensures no_other { (result ≡ TakeFault.Failed) ⊎ (result ≡ TakeFault.Memory) }
    ensures after { calls.new ≡ faulted calls.old }
    ensures count { calls.old.faults ≤ calls.new.faults }
{
    if calls.is_full() {
        return TakeFault::Memory;
    }
    calls.count_fault();
    TakeFault::Failed
}

impl MemShelf {
    /// A shelf with these files, of which the first counts where several have one name. The calls
    /// with the listed numbers fail. Takes no memory.
    pub fn new(alloc: Global, files: Vec<(String, Vec<u8>)>, fails: Vec<u32>) -> MemShelf
        ensures files { result.files ≡ files_of files.items }
        ensures calls { result.calls ≡ uncalled fails.items }
    {
        let calls = Calls::new(fails);
        MemShelf {
            alloc,
            files,
            calls,
        }
    }

    /// What a name holds. This counts as no call.
    pub fn file(&self, name: &str) -> Option<&[u8]>
        ensures { option_copied result ≡ map.get self.now.files name.now }
    {
        bytes_of(&self.files, name)
    }
}

impl Shelf for MemShelf {
    ghost told = { λ s. Some s.files };

    ghost faults = { λ s. s.calls.faults };

    ghost sure = { λ s. s.calls.fails ≡ [] };

    ghost sure_tells = { λ _ _. refl };

    fn take(&mut self, alloc: Global, name: &str, limit: u64) -> Result<Vec<u8>, TakeFault>
        ensures bytes { IfOk result (λ bytes. map.get self.old.files name.now ≡ Some bytes.items) }
        ensures within { IfOk result (λ bytes. vec_len bytes ≤ limit) }
        ensures failed { IsErrOf result TakeFault.Failed ↔ IsTrue (fails_take self.old name.now) × HasRisen self.old.calls.faults self.new.calls.faults }
        ensures long { IfLong result (λ read. (read ≡ limit + 1) × HoldsAtLeast (Some self.old.files) name.now read) }
        ensures after { self.new ≡ after_take self.old name.now }
        ensures count { self.old.calls.faults ≤ self.new.calls.faults }
    {
        if self.calls.is_next_failing() {
            return Err(take_fault(&mut self.calls));
        }
        let Some(bytes) = bytes_of(&self.files, name) else {
            return Err(take_fault(&mut self.calls));
        };
        if bytes.len() as u64 > limit {
            return Err(TakeFault::Long { read: limit + 1 });
        }
        Ok(copy_of(alloc, bytes)?)
    }

    fn put(&mut self, name: &str, bytes: &[u8]) -> Result<(), PutFault>
        ensures ok { OnOk result (IsFalse (is_failing self.old.calls) × (self.new ≡ after_put self.old name.now bytes.now)) }
        ensures failed { IsErrOf result PutFault.Failed → IsTrue (is_failing self.old.calls) × HasRisen self.old.calls.faults self.new.calls.faults × (self.new ≡ after_put self.old name.now bytes.now) }
        ensures memory { IsErrOf result PutFault.Memory → self.new ≡ record self.old { calls = called self.old.calls } }
        ensures count { self.old.calls.faults ≤ self.new.calls.faults }
    {
        if self.calls.is_next_failing() {
            if self.calls.is_full() {
                return Err(PutFault::Memory);
            }
            store(&mut self.files, self.alloc, name, first_half(bytes))?;
            self.calls.count_fault();
            return Err(PutFault::Failed);
        }
        store(&mut self.files, self.alloc, name, bytes)?;
        Ok(())
    }
}
