//! Reading what a rank wrote, its files one behind the other.
ghost use Rattle.std.specs.Prelude.{◌≡◌, ◌<◌, ◌≤◌, ◌+◌, ℕ, List, Some, flat_map, length, true, IfOk, OnOk};
ghost use Rattle.node_device.specs.Rack.{states_of};
ghost use Rattle.filemap.specs.Rows.{IsRows};
ghost use Rattle.member_store.specs.Names.{part_name};
ghost use Rattle.member_store.specs.declared.part.Part.TheVariants.{File as FilePart};
ghost use Rattle.ckpt_model.specs.Dataset.{File};
ghost use Rattle.commit_core.specs.Reads.{ReadsOnly, RankReads};
ghost use Rattle.commit_core.specs.Stretch.{IsStretch, IsFilled};

use filemap::FileRow;
use member_store::Part;
use node_device::{Bay, Device};
use scr_base::{Bytes, DataId};
use site_calls::{Trouble, get_part};
use std::alloc::Global;

/// Where the files of a rank stand.
#[derive(Clone, Copy, Debug)]
pub(crate) struct RankAt {
    /// The physical node.
    pub place: u8,
    pub which: DataId,
    pub node: u8,
    /// The rank's number on its node.
    pub local: u8,
    pub ghost low: { place < 32 },
}

/// So many bytes of a rank's stream from one place on, with zeros past its end. Each byte is read once. Fault where a
/// device failed; Memory where there is none for the bytes.
pub(crate) fn read_stream<D: Device>(
    alloc: Global,
    bay: &mut Bay<D>,
    rank: RankAt,
    rows: &[FileRow],
    from: u64,
    len: u32,
) -> Result<Bytes, Trouble>
    requires { IsRows rows.now }
    ensures only { ReadsOnly (states_of D.state bay.old) (states_of D.state bay.new) result }
    ensures size { IfOk result (λ bytes. length bytes ≡ len) }
    ensures bytes { (files : List File) → RankReads (states_of D.state bay.old rank.place) rank.which rank.node rank.local rows.now files → IfOk result (IsStretch (flat_map (λ f. f.bytes) files) from len) }
{
    let Ok(mut bytes) = vec![in alloc; 0u8; len as usize] else {
        return Err(Trouble::Memory);
    };
    let mut skip = from;
    let mut done = 0;
    for file in 0..rows.len() {
        let own = rows[file].len as u64;
        let count = own.saturating_sub(skip).min((len - done) as u64) as u32;
        read_file(
            bay,
            rank,
            file as u8,
            skip,
            &mut bytes,
            done as usize,
            count as usize,
        )?;
        skip = skip.saturating_sub(own);
        done += count;
    }
    Ok(Bytes::of(bytes))
}

/// Reads so many bytes of one of the rank's files, from the place `skip` on, into a part of a buffer that begins at `at`.
/// Where none are wanted it reads nothing.
fn read_file<D: Device>(
    bay: &mut Bay<D>,
    rank: RankAt,
    file: u8,
    skip: u64,
    into: &mut [u8],
    at: usize,
    count: usize,
) -> Result<(), Trouble>
    requires { at + count ≤ length into.old }
    ensures only { ReadsOnly (states_of D.state bay.old) (states_of D.state bay.new) result }
    ensures filled { (content : List ℕ) → (states_of D.state bay.old rank.place).tells ≡ true → ((states_of D.state bay.old rank.place).file (part_name rank.which rank.node (FilePart rank.local file))).now ≡ Some content
        → OnOk result (IsFilled content skip at count into.old into.new) }
{
    if count == 0 {
        return Ok(());
    }
    let part = Part::File {
        local: rank.local,
        file,
    };
    get_part(
        bay,
        rank.place,
        rank.which,
        rank.node,
        part,
        skip,
        &mut into[at..at + count],
    )
}
