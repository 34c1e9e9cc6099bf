use std::io::Write;
use std::net::TcpStream;
use std::process;
use std::test::Fail;
use swap_base::Geometry;
use swap_host::RealHost;
use swap_io::Source;
use swap_sock::{Address, Door, Host, HostFault, LinkEnd};

#[test]
fn disks_and_links_are_opened_or_refused(rt: HostRuntime) -> Result<(), Fail> {
    let sizes = Geometry::checked(8, 4, 2, 2, 2, 4, 20).map_err(|_| "sizes")?;
    let address = Address::read("127.0.0.1:9").ok_or("address")?;
    let path = format!(in rt.alloc(); "/tmp/remswap-{}.host", process::id(rt.process()))?;
    let mut host = RealHost::make(rt, rt.alloc());
    let disk = host.disk(&path, &sizes).map_err(|_| "disk")?;
    host.disk_back(disk);
    std::fs::remove_file(&rt, &path)?;
    assert_eq!(rt;
        host.disk("/dev/full", &sizes).err(),
        Some(HostFault::Failed)
    );
    let net = host
        .fabric(&[address, address], &sizes)
        .map_err(|_| "fabric")?;
    host.net_back(net);
    Ok(())
}

#[test]
fn a_door_lets_links_in_and_no_other_opens_there(rt: HostRuntime) -> Result<(), Fail> {
    let address = Address::read("127.0.0.1:0").ok_or("address")?;
    let mut host = RealHost::make(rt, rt.alloc());
    let mut door = host.door(&address).map_err(|_| "door")?;
    let place = door.listens_at()?;
    let taken = Address {
        port: place.port(),
        ..address
    };
    assert_eq!(rt; host.door(&taken).err(), Some(HostFault::Failed));
    let mut peer = TcpStream::connect(&rt, place)?;
    let (mut reader, _writer) = door.next().map_err(|_| "link")?;
    peer.write_all(&[7])?;
    let mut buf = [0; 2];
    assert_eq!(rt; reader.read(&mut buf), Ok(1));
    door.back(reader, LinkEnd::Read);
    host.door_back(door);
    Ok(())
}
