ghost use Rattle.node_device.specs.DeviceState.{IsDeviceName};

use member_store::scan;
use node_device::{DevError, Device, MemDevice};
use scr_base::Shape;
use std::alloc::Global;
use std::test::Fail;

/// `DSET{FLAGS{ckpt} ID{`, up to the length of the number.
const HEAD: &[u8] = b"\x00\x00\x00\x06\
\x00\x04DSET\x00\x00\x00\x04\
\x00\x05FLAGS\x00\x00\x00\x01\x00\x04ckpt\x00\x00\x00\x00\
\x00\x02ID\x00\x00\x00\x01\x00";

/// `} NAME{a} RUN{1}} FILES{00{00{f{3}}}} FORMAT{1} NODE{0} SCHEME{SHARES{0} SIZE{8} TYPE{single}} SHAPE{NODES{`
const MIDDLE: &[u8] = b"\x00\x00\x00\x00\
\x00\x04NAME\x00\x00\x00\x01\x00\x01a\x00\x00\x00\x00\
\x00\x03RUN\x00\x00\x00\x01\x00\x011\x00\x00\x00\x00\
\x00\x05FILES\x00\x00\x00\x01\x00\x0200\x00\x00\x00\x01\x00\x0200\x00\x00\x00\x01\x00\x01f\x00\x00\x00\x01\x00\x013\x00\x00\x00\x00\
\x00\x06FORMAT\x00\x00\x00\x01\x00\x011\x00\x00\x00\x00\
\x00\x04NODE\x00\x00\x00\x01\x00\x010\x00\x00\x00\x00\
\x00\x06SCHEME\x00\x00\x00\x03\
\x00\x06SHARES\x00\x00\x00\x01\x00\x010\x00\x00\x00\x00\
\x00\x04SIZE\x00\x00\x00\x01\x00\x018\x00\x00\x00\x00\
\x00\x04TYPE\x00\x00\x00\x01\x00\x06single\x00\x00\x00\x00\
\x00\x05SHAPE\x00\x00\x00\x02\
\x00\x05NODES\x00\x00\x00\x01\x00\x01";

/// `} RANKS{1}}`
const TAIL: &[u8] = b"\x00\x00\x00\x00\x00\x05RANKS\x00\x00\x00\x01\x00\x011\x00\x00\x00\x00";

/// The body of the record of node 0 of dataset `id` of run 1, on a site of so many nodes of one rank.
fn body(alloc: Global, id: &[u8], nodes: u8) -> Result<Vec<u8>, DevError> {
    let mut out = Vec::new(alloc);
    out.extend_from_slice(HEAD)?;
    out.push((id.len() % 256) as u8)?;
    out.extend_from_slice(id)?;
    out.extend_from_slice(MIDDLE)?;
    out.push(nodes)?;
    out.extend_from_slice(TAIL)?;
    Ok(out)
}

/// Writes a record with these bytes at its first two gates.
fn put(dev: &mut MemDevice, name: &[u8], gates: &[u8; 2], body: &[u8]) -> Result<(), DevError>
    requires { IsDeviceName name.now }
{
    let len = ((body.len() % 65536) as u16).to_be_bytes();
    dev.write(name, 0, gates)?;
    dev.write(name, 14, &len)?;
    dev.write(name, 16, body)
}

/// Two records of a site of one node and one rank, and files that aren't records of it.
fn filled(alloc: Global) -> Result<MemDevice, DevError> {
    let mut dev = MemDevice::new(alloc, 10_000, Vec::new(alloc))?;
    put(&mut dev, b"d.10.1.0.m", b"OO", &body(alloc, b"10", b'1')?)?;
    put(&mut dev, b"d.2.1.0.m", b"\x00O", &body(alloc, b"2", b'1')?)?;
    put(&mut dev, b"d.3.1.0.m", b"OO", &body(alloc, b"3", b'2')?)?;
    put(&mut dev, b"d.4.1.0.m", b"OO", b"\x00\x00\x00\x00")?;
    put(&mut dev, b"d.05.1.0.m", b"OO", &body(alloc, b"5", b'1')?)?;
    put(&mut dev, b"d.6.1.0.m", b"OO", &body(alloc, b"7", b'1')?)?;
    put(&mut dev, b"d.8.1.0.p.0", b"OO", &body(alloc, b"8", b'1')?)?;
    dev.write(b"d.9.1.0.m", 0, b"OOOOOOOO\x00\x00\x01\x00\x00\x00\x00\x00")?;
    Ok(dev)
}

#[test]
fn lists_the_records_of_the_site(rt: HostRuntime) -> Result<(), Fail> {
    let alloc = rt.alloc();
    let mut dev = filled(alloc)?;
    let shape = Shape {
        nodes: 1,
        ranks: 1,
        spares: 0,
    };
    let members = scan(alloc, &mut dev, shape)?;
    let want = [(2, false, true), (10, true, true)];
    assert_eq!(rt; members.len(), want.len());
    for (member, (id, whole, sealed)) in members.iter().zip(want) {
        assert_eq!(rt; member.which.id, id);
        assert_eq!(rt; member.which.run, 1);
        assert_eq!(rt; member.node, 0);
        assert_eq!(rt; member.whole, whole);
        assert_eq!(rt; member.sealed, sealed);
        assert_eq!(rt; member.desc.name.bytes(), b"a".as_slice());
    }
    Ok(())
}
