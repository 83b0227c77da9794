//! Records and devices that the tests begin with.
ghost use Rattle.std.specs.Prelude.{◌≡◌, ◌*◌, length, IfOk};
ghost use Rattle.node_device.specs.DeviceState.{IsDeviceName};

use dataset_desc::Desc;
use filemap::Filemap;
use node_device::{DevError, Device, MemDevice};
use scr_base::{DataId, Flags, Name, Scheme};
use std::alloc::Global;
use std::test::Fail;

/// `DSET{FLAGS{ckpt} ID{`, up to the length of the number.
const HEAD: &[u8] = b"\x00\x00\x00\x05\
\x00\x04DSET\x00\x00\x00\x04\
\x00\x05FLAGS\x00\x00\x00\x01\x00\x04ckpt\x00\x00\x00\x00\
\x00\x02ID\x00\x00\x00\x01\x00";

/// `} NAME{`, up to the length of the name.
const NAME: &[u8] = b"\x00\x00\x00\x00\
\x00\x04NAME\x00\x00\x00\x01\x00";

/// `} RUN{1}} FILES{00{00{f{3}}}} FORMAT{1} SCHEME{SHARES{0} SIZE{8} TYPE{single}} SHAPE{NODES{1} RANKS{1}}`
const TAIL: &[u8] = b"\x00\x00\x00\x00\
\x00\x03RUN\x00\x00\x00\x01\x00\x011\x00\x00\x00\x00\
\x00\x05FILES\x00\x00\x00\x01\x00\x0200\x00\x00\x00\x01\x00\x0200\x00\x00\x00\x01\x00\x01f\x00\x00\x00\x01\x00\x013\x00\x00\x00\x00\
\x00\x06FORMAT\x00\x00\x00\x01\x00\x011\x00\x00\x00\x00\
\x00\x06SCHEME\x00\x00\x00\x03\
\x00\x06SHARES\x00\x00\x00\x01\x00\x010\x00\x00\x00\x00\
\x00\x04SIZE\x00\x00\x00\x01\x00\x018\x00\x00\x00\x00\
\x00\x04TYPE\x00\x00\x00\x01\x00\x06single\x00\x00\x00\x00\
\x00\x05SHAPE\x00\x00\x00\x02\
\x00\x05NODES\x00\x00\x00\x01\x00\x011\x00\x00\x00\x00\
\x00\x05RANKS\x00\x00\x00\x01\x00\x011\x00\x00\x00\x00";

/// The body of the index record of dataset `id` of run 1, with one file `f` of 3 bytes, on a site of one node and one rank.
pub(crate) fn body(alloc: Global, id: &[u8], name: &[u8]) -> Result<Vec<u8>, DevError> {
    let mut out = Vec::from_slice(alloc, HEAD)?;
    out.push((id.len() % 256) as u8)?;
    out.extend_from_slice(id)?;
    out.extend_from_slice(NAME)?;
    out.push((name.len() % 256) as u8)?;
    out.extend_from_slice(name)?;
    out.extend_from_slice(TAIL)?;
    Ok(out)
}

/// Writes a record with these bytes at its first two gates.
pub(crate) fn put(
    dev: &mut MemDevice,
    record: &[u8],
    gates: &[u8; 2],
    body: &[u8],
) -> Result<(), DevError>
    requires { IsDeviceName record.now }
{
    let len = ((body.len() % 65536) as u16).to_be_bytes();
    dev.write(record, 0, gates)?;
    dev.write(record, 14, &len)?;
    dev.write(record, 16, body)
}

/// Writes the record of dataset `id` of run 1 under its name.
pub(crate) fn put_entry(
    dev: &mut MemDevice,
    alloc: Global,
    record: &[u8],
    id: &[u8],
    name: &[u8],
    gates: &[u8; 2],
) -> Result<(), DevError>
    requires { IsDeviceName record.now }
{
    put(dev, record, gates, &body(alloc, id, name)?)
}

/// A device with room for these tests, of whose calls none fails.
pub(crate) fn roomy(alloc: Global) -> Result<MemDevice, DevError> {
    Ok(MemDevice::new(alloc, 100_000, Vec::new(alloc))?)
}

/// Dataset 1 of run 1 on a site of one node and one rank.
pub(crate) fn first(alloc: Global, name: &[u8]) -> Result<Desc, Fail>
    ensures { IfOk result (λ desc. desc.nodes * desc.ranks ≡ 1) }
{
    Ok(Desc {
        which: DataId { id: 1, run: 1 },
        name: Name::read(alloc, name)?,
        flags: Flags::Ckpt,
        nodes: 1,
        ranks: 1,
        scheme: Scheme::Single,
        size: 8,
    })
}

/// One file `f` of 3 bytes of rank 0.
pub(crate) fn one_file(alloc: Global) -> Result<Filemap, Fail>
    ensures { IfOk result (λ files. length files ≡ 1) }
{
    let mut files = Filemap::new(alloc, 1)?;
    let file = files.route(0, &Name::read(alloc, b"f")?)?;
    files.extend(0, file, 3);
    Ok(files)
}

/// What a file holds, from the front on.
pub(crate) fn holds(dev: &mut MemDevice, alloc: Global, name: &[u8]) -> Result<Vec<u8>, DevError>
    requires { IsDeviceName name.now }
{
    let len = dev.size(name)?;
    let mut bytes = vec![in alloc; 0u8; (len % 65536) as usize]?;
    dev.read(name, 0, &mut bytes)?;
    Ok(bytes)
}

/// `ID{1} RUN{1}` in version 1, with gate 0 open.
pub(crate) const MARK_OF_FIRST: &[u8] = b"O\x00\x00\x00\x00\x00\x00\x00\
\x00\x00\x00\x00\x00\x00\x00\x27\
\x00\x00\x00\x01\
\x00\x00\x00\x02\
\x00\x02ID\x00\x00\x00\x01\x00\x011\x00\x00\x00\x00\
\x00\x03RUN\x00\x00\x00\x01\x00\x011\x00\x00\x00\x00";

/// Writes the entries 1.1, 2.1 and 3.1, of which the last is failed.
pub(crate) fn put_three(dev: &mut MemDevice, alloc: Global) -> Result<(), DevError> {
    put_entry(dev, alloc, b"x.1.1", b"1", b"a", b"O\x00")?;
    put_entry(dev, alloc, b"x.2.1", b"2", b"b", b"O\x00")?;
    put_entry(dev, alloc, b"x.3.1", b"3", b"c", b"OO")
}

/// A device with these entries.
pub(crate) fn three_entries(alloc: Global) -> Result<MemDevice, DevError> {
    let mut dev = roomy(alloc)?;
    put_three(&mut dev, alloc)?;
    Ok(dev)
}

/// A dataset of run 1.
pub(crate) fn of_first_run(id: u32) -> Option<DataId> {
    Some(DataId { id, run: 1 })
}
