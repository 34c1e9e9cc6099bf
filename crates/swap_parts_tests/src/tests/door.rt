use std::io::Write;
use std::net::{Shutdown, TcpStream};
use std::test::Fail;
use swap_door::{TcpDoor, socket_address};
use swap_io::{Sink, Source};
use swap_sock::{Address, Door, LinkEnd};

#[test]
fn a_link_comes_in_and_both_sides_see_what_is_written(rt: HostRuntime) -> Result<(), Fail> {
    let address = Address::read("127.0.0.1:0").ok_or("address")?;
    let mut door = TcpDoor::open(rt, rt.alloc(), &address).map_err(|_| "door")?;
    let mut peer = TcpStream::connect(&rt, door.listens_at()?)?;
    let (mut reader, mut writer) = door.next().map_err(|_| "link")?;
    peer.write_all(&[1, 2, 3])?;
    peer.shutdown(Shutdown::Write)?;
    let mut buf = [0; 8];
    assert_eq!(rt; reader.read(&mut buf), Ok(3));
    assert_eq!(rt; reader.read(&mut buf), Ok(0));
    assert_eq!(rt; writer.write(&[4, 5]), Ok(2));
    drop(writer);
    let mut came = [0; 2];
    std::io::Read::read_exact(&mut peer, &mut came)?;
    assert_eq!(rt; came, [4, 5]);
    assert_eq!(rt; std::io::Read::read(&mut peer, &mut buf)?, 0);
    door.back(reader, LinkEnd::Read);
    let taken = TcpDoor::open(
        rt,
        rt.alloc(),
        &Address {
            port: door.listens_at()?.port(),
            ..address
        },
    );
    assert!(rt; taken.is_err());
    assert_eq!(rt; socket_address(&address).port(), 0);
    Ok(())
}

#[test]
fn what_is_gathered_goes_out_before_the_next_read(rt: HostRuntime) -> Result<(), Fail> {
    let address = Address::read("127.0.0.1:0").ok_or("address")?;
    let mut door = TcpDoor::open(rt, rt.alloc(), &address).map_err(|_| "door")?;
    let mut peer = TcpStream::connect(&rt, door.listens_at()?)?;
    let (mut reader, mut writer) = door.next().map_err(|_| "link")?;
    let mut came = [0; 2];
    assert_eq!(rt; writer.write(&[1, 2]), Ok(2));
    std::io::Read::read_exact(&mut peer, &mut came)?;
    assert_eq!(rt; came, [1, 2]);
    peer.write_all(&[3])?;
    peer.shutdown(Shutdown::Write)?;
    let mut buf = [0; 8];
    assert_eq!(rt; reader.read(&mut buf), Ok(1));
    assert_eq!(rt; writer.write(&[4]), Ok(1));
    assert_eq!(rt; writer.write(&[5]), Ok(1));
    peer.set_nonblocking(true)?;
    assert!(rt; std::io::Read::read(&mut peer, &mut came).is_err());
    peer.set_nonblocking(false)?;
    assert_eq!(rt; reader.read(&mut buf), Ok(0));
    std::io::Read::read_exact(&mut peer, &mut came)?;
    assert_eq!(rt; came, [4, 5]);
    Ok(())
}
