use std::test::Fail;
use swap_base::Geometry;
use swap_sock::{Address, Door, Host, HostFault, LinkEnd, MemHost};

#[test]
fn an_address_is_read(rt: HostRuntime) {
    let expected = Address {
        a: 10,
        b: 0,
        c: 200,
        d: 9,
        port: 65_535,
    };
    assert_eq!(rt; Address::read("10.0.200.9:65535"), Some(expected));
    assert_eq!(rt; Address::read("10.0.200.9:65536"), None);
}

#[test]
fn a_host_in_memory_fails_where_it_is_told(rt: HostRuntime) -> Result<(), Fail> {
    let alloc = rt.alloc();
    let geometry = Geometry::checked(8, 4, 2, 2, 2, 4, 20).map_err(|_| "sizes")?;
    let address = Address {
        a: 127,
        b: 0,
        c: 0,
        d: 1,
        port: 7_070,
    };
    let mut host = MemHost::make(alloc, vec![in alloc; 0, 4]?);
    assert_eq!(rt; host.disk("a", &geometry).err(), Some(HostFault::Failed));
    let disk = host.disk("a", &geometry).map_err(|_| "disk")?;
    let net = host.fabric(&[address], &geometry).map_err(|_| "fabric")?;
    let mut door = host.door(&address).map_err(|_| "door")?;
    assert_eq!(rt; host.door(&address).err(), Some(HostFault::Failed));
    let (reader, _writer) = door.next().map_err(|_| "link")?;
    door.back(reader, LinkEnd::Read);
    host.disk_back(disk);
    host.net_back(net);
    host.door_back(door);
    Ok(())
}
