ghost use Rattle.std.specs.Prelude.{◌≡◌, None, Some, List, ℕ, length, OnOk, OnErr, ◌++◌, ◌∷◌, [], string_bytes};
ghost use Rattle.ap_outside.specs.Held.{place_of, content_of};
ghost use Rattle.ap_outside.specs.Told.{with_held};

/// A file in memory.
#[derive(Debug, Drop)]
pub struct MemFile {
    pub name: String,
    pub bytes: Vec<u8>,
}

/// The place of the first file of this name.
pub fn place(files: &[MemFile], name: &str) -> Option<usize>
    ensures { result ≡ place_of files.now name.now }
{
    files.iter().position(|file| file.name.as_str() == name)
}

/// Gives the file at this place these bytes.
pub fn rewrite(files: &mut Vec<MemFile>, name: &str, at: usize, bytes: Vec<u8>)
    requires { place_of files.old.items name.now ≡ Some at }
    ensures contents { content_of files.new.items
        ≡ with_held (content_of files.old.items) name.now (Some bytes.items) }
    ensures places { place_of files.new.items ≡ place_of files.old.items }
    ensures count { length files.new.items ≡ length files.old.items }
{
    files[at].bytes = bytes;
}
