//! The order of entries: by id, and then by run.
ghost use Rattle.std.specs.Prelude.{◌≡◌, ◌≤◌, IsTrue, ◌↔◌, length, OnErr, OnOk, Err};
ghost use Rattle.prefix_index.specs.Entries.{IsBefore};
ghost use Rattle.prefix_index.specs.Listing.{AreAscending, IsPlaceFor, PutsEntry};

use crate::Entry;
use node_device::DevError;

/// Is the first entry before the second?
fn is_before(a: &Entry, b: &Entry) -> bool
    ensures { IsTrue result ↔ IsBefore a.now b.now }
{
    if a.desc.which.id == b.desc.which.id {
        a.desc.which.run < b.desc.which.run
    } else {
        a.desc.which.id < b.desc.which.id
    }
}

/// How many entries from the front on are before this one, where they ascend.
fn place_for(entries: &[Entry], entry: &Entry) -> usize
    ensures within { result ≤ length entries.now }
    ensures place { AreAscending entries.now → IsPlaceFor entries.now entry.now result }
{
    let mut low = 0;
    let mut high = entries.len();
    while low < high {
        let middle = low + (high - low) / 2;
        if is_before(&entries[middle], entry) {
            low = middle + 1;
        } else {
            high = middle;
        }
    }
    low
}

/// Puts an entry behind those that are before it.
pub(crate) fn put_in_order(entries: &mut Vec<Entry>, entry: Entry) -> Result<(), DevError>
    ensures memory { OnErr result (result ≡ Err DevError.Memory) }
    ensures put { OnOk result (AreAscending entries.old.items → PutsEntry entries.old.items entry entries.new.items) }
{
    let place = place_for(entries, &entry);
    entries.insert(place, entry)?;
    Ok(())
}
