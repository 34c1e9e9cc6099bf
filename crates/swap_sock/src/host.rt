use crate::Address;
use swap_base::Geometry;
use swap_disk::DiskPort;
use swap_io::{Sink, Source};
use swap_wire::{Fabric, Msg};

/// Why a host or a door gave nothing.
#[derive(Clone, Copy, Debug, PartialEq, Eq)]
pub enum HostFault {
    Failed,
    NoMemory,
}

/// How a lender's link ended: it was read to its end, a read failed, at a place of its bytes no
/// frame stands, a write to it failed, or it sent a message that it may not send.
#[derive(Debug, Drop)]
pub enum LinkEnd<K> {
    Read,
    ReadFailed,
    Bad { at: u64 },
    Down(K),
    Ended { msg: Msg },
}

/// Where links come in, each as a reader and a writer.
///
/// It means a count of faults that never falls, and how many links it was asked for, gave and got
/// back; where it tells them, each reader as it was given, and each as it came back with its link's
/// end.
pub trait Door {
    ghost use Rattle.std.specs.Prelude.{◌≡◌, ℕ, ◌≤◌, [], IfOk, IfSome, MatchResult, Err};
    ghost use Rattle.swap_io.specs.Causes.{Rose};
    ghost use Rattle.swap_sock.specs.Dealings.{Dealings, Left, left_by, gave_one, gave_none, got_back};
    ghost use Rattle.swap_sock.specs.declared.host.HostFault.TheVariants as fault;

    type Reader: Source + Drop + Send + 'static;

    type Writer: Sink + Drop + Send + 'static;

    /// How many faults there were.
    ghost faults: { Self → ℕ };

    /// The links that were asked for, given and got back. They have no names.
    ghost links: { Self → Dealings (Unit {0}) Self.Reader (Left Self.Reader Self.Writer) };

    /// The next link that comes. Its reader and writer have no faults, and the writer took no
    /// bytes, where it tells them.
    fn next(&mut self) -> Result<(Self::Reader, Self::Writer), HostFault>
        ensures later { faults self.old ≤ faults self.new }
        ensures cause { result ≡ Err fault.Failed → Rose (faults self.old) (faults self.new) }
        ensures links { MatchResult result (λ r. links self.new ≡ gave_one tt r.0 (links self.old))
            (λ e. links self.new ≡ gave_none tt (links self.old)) }
        ensures reader { IfOk result (λ r. Self.Reader.faults r.0 ≡ 0) }
        ensures writer { IfOk result (λ r. Self.Writer.faults r.1 ≡ 0) }
        ensures empty { IfOk result (λ r. IfSome (Self.Writer.taken r.1) (λ bytes. bytes ≡ [])) };

    /// Takes a link's reader back, with how the link ended.
    fn back(&mut self, reader: Self::Reader, end: LinkEnd<Self::Writer>)
        ensures later { faults self.old ≤ faults self.new }
        ensures links { links self.new ≡ got_back (left_by reader end) (links self.old) };
}

/// Where a program gets its disk, its links and its door from.
///
/// It means a count of faults that never falls, and of each kind how many it was asked for, gave
/// and got back; where it tells them, the path or the addresses of each, and each as it was given
/// and as it came back.
pub trait Host {
    ghost use Rattle.std.specs.Prelude.{◌≡◌, ℕ, ◌<◌, ◌≤◌, List, length, IfOk, MatchResult, Err};
    ghost use Rattle.swap_io.specs.Causes.{Rose};
    ghost use Rattle.swap_sock.specs.Dealings.{Dealings, gave_one, gave_none, got_back};
    ghost use Rattle.swap_sock.specs.Making.{IsNewDisk};
    ghost use Rattle.swap_sock.specs.declared.address.Address.{Address};
    ghost use Rattle.swap_sock.specs.declared.host.HostFault.TheVariants as fault;

    type Disk: DiskPort + Drop;

    type Net: Fabric + Drop;

    type Entrance: Door + Drop;

    /// How many faults there were.
    ghost faults: { Self → ℕ };

    /// The disks, by their paths.
    ghost disks: { Self → Dealings (List ℕ) Self.Disk Self.Disk };

    /// The fabrics, by their lenders' addresses.
    ghost nets: { Self → Dealings (List Address) Self.Net Self.Net };

    /// The doors, by their addresses.
    ghost doors: { Self → Dealings Address Self.Entrance Self.Entrance };

    /// A disk of this geometry at a path. Nothing was asked of it.
    fn disk(&mut self, path: &str, geometry: &Geometry) -> Result<Self::Disk, HostFault>
        ensures later { faults self.old ≤ faults self.new }
        ensures cause { result ≡ Err fault.Failed → Rose (faults self.old) (faults self.new) }
        ensures disks { MatchResult result
            (λ d. disks self.new ≡ gave_one path.now d (disks self.old))
            (λ e. disks self.new ≡ gave_none path.now (disks self.old)) }
        ensures nets { nets self.new ≡ nets self.old }
        ensures doors { doors self.new ≡ doors self.old }
        ensures fresh { IfOk result (λ d. IsNewDisk geometry.now (Self.Disk.means d)) };

    /// A fabric with a lender at each address. Nothing was asked of it.
    fn fabric(&mut self, addresses: &[Address], geometry: &Geometry) -> Result<Self::Net, HostFault>
        ensures later { faults self.old ≤ faults self.new }
        ensures cause { result ≡ Err fault.Failed → Rose (faults self.old) (faults self.new) }
        ensures nets { MatchResult result
            (λ n. nets self.new ≡ gave_one addresses.now n (nets self.old))
            (λ e. nets self.new ≡ gave_none addresses.now (nets self.old)) }
        ensures disks { disks self.new ≡ disks self.old }
        ensures doors { doors self.new ≡ doors self.old }
        ensures fresh { IfOk result
            (λ n.
            Self.Net.fresh n
            (record { sizes = geometry.now; lenders = length addresses.now })) };

    /// A door at an address, with no faults.
    fn door(&mut self, address: &Address) -> Result<Self::Entrance, HostFault>
        ensures later { faults self.old ≤ faults self.new }
        ensures cause { result ≡ Err fault.Failed → Rose (faults self.old) (faults self.new) }
        ensures doors { MatchResult result
            (λ d. doors self.new ≡ gave_one address.now d (doors self.old))
            (λ e. doors self.new ≡ gave_none address.now (doors self.old)) }
        ensures disks { disks self.new ≡ disks self.old }
        ensures nets { nets self.new ≡ nets self.old }
        ensures fresh { IfOk result (λ d. Self.Entrance.faults d ≡ 0) };

    /// Takes a disk back.
    fn disk_back(&mut self, disk: Self::Disk)
        ensures later { faults self.old ≤ faults self.new }
        ensures disks { disks self.new ≡ got_back disk (disks self.old) }
        ensures nets { nets self.new ≡ nets self.old }
        ensures doors { doors self.new ≡ doors self.old };

    /// Takes a fabric back.
    fn net_back(&mut self, net: Self::Net)
        ensures later { faults self.old ≤ faults self.new }
        ensures nets { nets self.new ≡ got_back net (nets self.old) }
        ensures disks { disks self.new ≡ disks self.old }
        ensures doors { doors self.new ≡ doors self.old };

    /// Takes a door back. The host's count rises where that door's is above 0.
    fn door_back(&mut self, door: Self::Entrance)
        ensures later { faults self.old ≤ faults self.new }
        ensures rises { 0 < Self.Entrance.faults door → Rose (faults self.old) (faults self.new) }
        ensures doors { doors self.new ≡ got_back door (doors self.old) }
        ensures disks { disks self.new ≡ disks self.old }
        ensures nets { nets self.new ≡ nets self.old };
}
