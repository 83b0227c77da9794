//! What stands under a folder.
ghost use Rattle.std.specs.Prelude.{IsTrue, ◌↔◌, []};
ghost use Rattle.prefix_store.specs.Names.{IsUnder};

/// Does a name begin with the folder's and a slash?
pub(crate) fn is_under(folder: &[u8], name: &[u8]) -> bool
    ensures { IsTrue result ↔ IsUnder folder.now name.now }
{
    match name.strip_prefix(folder) {
        None => false,
        Some(rest) => begins_with_slash(rest),
    }
}

fn begins_with_slash(bytes: &[u8]) -> bool
    ensures { IsTrue result ↔ IsUnder [] bytes.now }
{
    match bytes {
        [] => false,
        [first, ..] => *first == b'/',
    }
}
