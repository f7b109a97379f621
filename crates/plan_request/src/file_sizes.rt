//! The declared sizes of files.

ghost use Rattle.std.specs.Prelude.{◌≡◌, [], length, map, IfOk};
ghost use Rattle.std.specs.List.{zip};
ghost use Rattle.plan_request.specs.code.Index.{with_entries};
ghost use Rattle.plan_request.specs.FileSizes.{named_size, size_by, declared_sizes};

use crate::index::Index;
use crate::request::{PlanRequest, SizeOf};
use std::alloc::Global;
use values::{Memory, Text};

fn sizes_by_name(alloc: Global, sizes: &[SizeOf]) -> Result<Index<u64>, Memory>
    ensures { IfOk result (λ index. index ≡ with_entries [] (map named_size sizes.now)) }
{
    let mut index = Index::new(alloc);
    for entry in sizes {
        index.add(alloc, &entry.lfn, entry.size)?;
    }
    Ok(index)
}

fn size_by(
    index: &Index<u64>,
    default: Option<u64>,
    file: &Text,
    stated: Option<u64>,
) -> Option<u64>
    ensures { result ≡ size_by index.now default file.now stated }
{
    match index.get(file) {
        Some(size) => Some(*size),
        None => stated.or(default),
    }
}

fn each_size_by(
    alloc: Global,
    index: &Index<u64>,
    default: Option<u64>,
    files: &[Text],
    stated: &[Option<u64>],
) -> Result<Vec<Option<u64>>, Memory>
    ensures { IfOk result (λ v. v.items ≡ map (λ f. size_by index.now default f.0 f.1)
        (zip files.now stated.now)) }
{
    let mut sizes = Vec::with_capacity(alloc, files.len())?;
    for (file, size) in files.iter().zip(stated.iter()) {
        sizes.push(size_by(index, default, file, *size))?;
    }
    Ok(sizes)
}

/// The declared size of each file, in bytes: the request's, else the first that a use of the file
/// states, else the request's default.
pub fn declared_sizes(
    alloc: Global,
    request: &PlanRequest,
    files: &[Text],
    stated: &[Option<u64>],
) -> Result<Vec<Option<u64>>, Memory>
    requires one_for_each_file { length files.now ≡ length stated.now }
    ensures sizes { IfOk result (λ v. v.items ≡ declared_sizes request.now files.now stated.now) }
    ensures len { IfOk result (λ v. length v.items ≡ length files.now) }
{
    let index = sizes_by_name(alloc, request.sizes.as_slice())?;
    let sizes = each_size_by(alloc, &index, request.default_size, files, stated)?;
    Ok(sizes)
}
