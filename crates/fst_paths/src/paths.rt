ghost use Rattle.std.specs.Prelude.{◌≡◌, true, OnOk};
ghost use Rattle.fst_paths.specs.Paths.{has_path, put_at};

use fst_types::Path;
use std::alloc::{AllocError, Global};
use std::collections::BTreeSet;

/// Puts a path into a set of paths. Where memory is wanting, the set is as it was.
pub fn insert_path(
    alloc: Global,
    paths: &mut BTreeSet<Vec<u32>>,
    path: &Path,
) -> Result<(), AllocError>
    ensures { OnOk result (has_path paths.new.keys ≡
        put_at path.now true (has_path paths.old.keys)) }
{
    let key = Vec::from_slice(alloc, path.as_slice())?;
    paths.insert(key)?;
    Ok(())
}
