//! The bytes of files by number.

ghost use Rattle.std.specs.Prelude.{◌≡◌, ◌==◌, ℕ, None, Some, OnOk, IfOk, cond, is_some, map, true};
ghost use Rattle.std.specs.Option.{option_copied};
ghost use Rattle.values.specs.Apply.{all_of, part};
ghost use Rattle.plan_core.specs.Numbers.{has, or_else};
ghost use Rattle.plan_core.specs.Words.{file_numbers};
ghost use Rattle.storage_simulation.specs.Following.{AreOnce};

use outside::{Blob, FileId, Memory};
use std::alloc::Global;
use std::collections::HashMap;

/// The bytes of files, by number.
#[derive(Drop)]
pub(crate) struct Table {
    bytes: HashMap<u32, Blob>,
}

impl Table {
    ghost use Rattle.task_work.specs.Table.{IsFound, at};

    pub(crate) fn new(alloc: Global) -> Table
        ensures { (f : ℕ) → at result f ≡ None }
    {
        Table {
            bytes: HashMap::new(alloc),
        }
    }

    /// Sets the bytes of a file, in place of earlier ones.
    fn put(&mut self, file: FileId, blob: Blob) -> Result<(), Memory>
        ensures { OnOk result ((f : ℕ) → at self.new f ≡ cond (file.0 == f) (Some blob) (at self.old f)) }
    {
        self.bytes.insert(file.0, blob)?;
        Ok(())
    }

    /// The bytes of a file.
    fn find(&self, file: FileId) -> Option<&Blob>
        ensures { option_copied result ≡ at self.now file.0 }
    {
        self.bytes.get(&file.0)
    }

    /// Takes the bytes of a file out.
    fn take(&mut self, file: FileId) -> Option<Blob>
        ensures value { result ≡ at self.old file.0 }
        ensures left { (f : ℕ) → at self.new f ≡ cond (file.0 == f) None (at self.old f) }
    {
        self.bytes.remove(&file.0)
    }

    /// Sets the bytes of some files, one by one. Of a file that comes twice the first ones count.
    pub(crate) fn place(&mut self, files: &[FileId], blobs: Vec<Blob>) -> Result<(), Memory>
        ensures { OnOk result ((f : ℕ)
            → at self.new f ≡ or_else (part f (file_numbers files.now) blobs.items) (at self.old f)) }
    {
        let mut blobs = blobs;
        let mut k = files.len().min(blobs.len());
        blobs.truncate(k);
        while k > 0 {
            k -= 1;
            match blobs.pop() {
                Some(blob) => self.put(files[k], blob)?,
                None => unreachable!(),
            }
        }
        Ok(())
    }

    /// Copies of the bytes of some files, if each is there.
    pub(crate) fn copies(
        &self,
        alloc: Global,
        files: &[FileId],
    ) -> Result<Option<Vec<Blob>>, Memory>
        ensures { IfOk result (λ o. IsFound (all_of (map (at self.now) (file_numbers files.now))) o) }
    {
        let mut blobs = Vec::new(alloc);
        for file in files {
            match self.find(*file) {
                Some(blob) => blobs.push(Blob::copy_of(alloc, blob.as_slice())?)?,
                None => return Ok(None),
            }
        }
        Ok(Some(blobs))
    }

    /// The bytes of some files, taken out. Each of them is there, and none comes twice.
    pub(crate) fn take_all(self, alloc: Global, files: &[FileId]) -> Result<Vec<Blob>, Memory>
        requires there { (f : ℕ) → has (file_numbers files.now) f ≡ true → is_some (at self f) ≡ true }
        requires once { AreOnce (file_numbers files.now) }
        ensures { IfOk result (λ v. map (at self) (file_numbers files.now) ≡ map Some v.items) }
    {
        let mut table = self;
        let mut blobs = Vec::new(alloc);
        for file in files {
            match table.take(*file) {
                Some(blob) => blobs.push(blob)?,
                None => unreachable!(),
            }
        }
        Ok(blobs)
    }
}
