//! The names of a store's files (own).
ghost use Rattle.std.specs.Prelude.{◌≡◌, ◌++◌, string_bytes, IfOk};
ghost use Rattle.store_files.specs.Names.{path_of, text_name, torn_name};

use std::alloc::{AllocError, Global};

/// The name of the journal.
pub(crate) const JOURNAL: &str = "journal";

/// The name of a journal that isn't renamed yet.
pub(crate) const NEW_JOURNAL: &str = "journal.new";

/// The name of a file with a journal's torn end that isn't renamed yet.
pub(crate) const NEW_TORN: &str = "torn.new";

/// The number of the zone text of a directory's first store.
pub const FIRST_TEXT: u64 = 0;

/// The name of the file that is locked.
pub(crate) const LOCK: &str = "lock";

/// The path of a file of a store. It allocates memory.
pub(crate) fn path_of(alloc: Global, dir: &str, name: &str) -> Result<String, AllocError>
    ensures { IfOk result (λ path. string_bytes path ≡ path_of dir.now name.now) }
{
    format!(in alloc; "{dir}/{name}")
}

/// The path of the zone text of a number. It allocates memory.
pub(crate) fn text_path(alloc: Global, dir: &str, number: u64) -> Result<String, AllocError>
    ensures { IfOk result (λ path. string_bytes path ≡ path_of dir.now (text_name number)) }
{
    format!(in alloc; "{dir}/zone-{number}")
}

/// The path of the file of a number with a journal's torn end. It allocates memory.
pub(crate) fn torn_path(alloc: Global, dir: &str, number: u64) -> Result<String, AllocError>
    ensures { IfOk result (λ path. string_bytes path ≡ path_of dir.now (torn_name number)) }
{
    format!(in alloc; "{dir}/torn-{number}")
}
