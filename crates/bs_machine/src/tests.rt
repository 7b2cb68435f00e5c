ghost use Rattle.std.specs.Prelude.{◌≤◌};

use crate::{Fitted, Machine, MachineFault, MachineKey, PlaceLength, flat, read_machine};
use std::alloc::{AllocError, Global};
use std::process::Abort;
use std::test::Fail;

const TORUS: &str = "sizes = [2]\nper_node = 1";

const PLACE: &str = "kind = \"cycle\"";

const SPEED: &str = "num = 1\nden = 1";

const LATENCY: &str = "self = 1\nlocal = 1\nbase = 5\nhop = 0\nbytes_num = 1\nbytes_den = 64";

fn file(
    alloc: Global,
    torus: &str,
    place: &str,
    speed: &str,
    latency: &str,
) -> Result<String, AllocError> {
    format!(in alloc;
        "[torus]\n{torus}\n[place]\n{place}\n[speed]\n{speed}\n[latency]\n{latency}\n"
    )
}

fn fitted(machine: Result<Machine, MachineFault>, chares: u32) -> Result<Fitted, Fail>
    requires { (1 ≤ chares) × (chares ≤ 65536) }
{
    match machine {
        Ok(machine) => match machine.fit(chares) {
            Ok(fitted) => Ok(fitted),
            Err(_) => Err("not fitted".into()),
        },
        Err(_) => Err("not read".into()),
    }
}

#[test]
fn a_file_is_read_and_fitted(rt: HostRuntime) -> Result<(), Fail> {
    let text = file(rt.alloc(), TORUS, PLACE, SPEED, LATENCY)?;
    let machine = fitted(read_machine(rt.alloc(), text.as_bytes()), 3)?;
    assert_eq!(rt; machine.processors(), 2);
    if machine.processors() == 2 && machine.chares == 3 {
        assert_eq!(rt; machine.home(2), 0);
        assert_eq!(rt; machine.latency(1, 0, 640), 15);
        assert_eq!(rt; machine.latency(1, 0, 8), 6);
        assert_eq!(rt; machine.latency(1, 1, 640), 1);
    }
    assert_eq!(rt; machine.duration(10), 10);
    let fast = file(rt.alloc(), TORUS, PLACE, "num = 65_535\nden = 1", LATENCY)?;
    let machine = fitted(read_machine(rt.alloc(), fast.as_bytes()), 1)?;
    assert_eq!(rt; machine.duration(4_294_967_296), 281_470_681_743_360);
    Ok(())
}

#[test]
fn a_flat_machine_is_one_ring(rt: HostRuntime) -> Result<(), Fail> {
    let machine = fitted(flat(rt.alloc(), 4, 7), 10)?;
    assert_eq!(rt; machine.processors(), 4);
    if machine.processors() == 4 && machine.chares == 10 {
        assert_eq!(rt; machine.home(9), 1);
        assert_eq!(rt; machine.latency(0, 3, 1_000_000), 7);
    }
    assert_eq!(rt; machine.duration(9), 9);
    let sizes = MachineFault::OutOfRange(MachineKey::TorusSizes, None);
    let base = MachineFault::OutOfRange(MachineKey::LatencyBase, None);
    for (processors, latency, fault) in [(0, 0, sizes), (65537, 1, sizes), (1, 0, base)] {
        assert_eq!(rt; flat(rt.alloc(), processors, latency).err(), Some(fault));
    }
    Ok(())
}

#[test]
fn a_list_has_a_home_for_each_chare(rt: HostRuntime) -> Result<(), Fail> {
    let place = "kind = 'list'\nlist = [1, 0]";
    let text = file(rt.alloc(), TORUS, place, SPEED, LATENCY)?;
    let machine = fitted(read_machine(rt.alloc(), text.as_bytes()), 2)?;
    if machine.chares == 2 {
        assert_eq!(rt; machine.home(0), 1);
    }
    let Ok(machine) = read_machine(rt.alloc(), text.as_bytes()) else {
        return Err("not read".into());
    };
    let length = PlaceLength {
        given: 2,
        needed: 3,
    };
    assert_eq!(rt; machine.fit(3).err(), Some(length));
    Ok(())
}

fn refused(rt: &impl Abort, alloc: Global, text: &str, fault: MachineFault) {
    assert_eq!(rt;
        read_machine(alloc, text.as_bytes()).err(),
        Some(fault),
        "{text}"
    );
}

#[test]
fn the_first_mistake_is_named(rt: HostRuntime) -> Result<(), Fail> {
    let alloc = rt.alloc();
    let missing = MachineFault::Missing;
    refused(&rt, alloc, "", missing(MachineKey::TorusSizes));
    refused(&rt, alloc, "torus = 1", MachineFault::UnknownKey);
    refused(&rt, alloc, "[[torus]]", MachineFault::UnknownKey);
    refused(&rt, alloc, "a = 9223372036854775808", MachineFault::NotToml);
    for (place, fault) in [
        ("kind = \"cycle\"\nlist = [0]", MachineFault::UnknownKey),
        ("kind = 3\nlist = [0]", MachineFault::UnknownKey),
        ("list = [0]", missing(MachineKey::PlaceKind)),
        ("kind = \"list\"", missing(MachineKey::PlaceList)),
        (
            "kind = 3",
            MachineFault::OutOfRange(MachineKey::PlaceKind, None),
        ),
        (
            "kind = \"list\"\nlist = [0, 2]",
            MachineFault::OutOfRange(MachineKey::PlaceList, None),
        ),
    ] {
        let text = file(alloc, TORUS, place, SPEED, LATENCY)?;
        refused(&rt, alloc, text.as_str(), fault);
    }
    for (torus, key) in [
        ("sizes = []\nper_node = 1", MachineKey::TorusSizes),
        (
            "sizes = [1, 1, 1, 1, 1, 1, 1]\nper_node = 1",
            MachineKey::TorusSizes,
        ),
        (
            "sizes = [65536, 65536, 65536, 65536, 65536, 65536]\nper_node = 1",
            MachineKey::TorusPerNode,
        ),
    ] {
        let text = file(alloc, torus, PLACE, SPEED, LATENCY)?;
        refused(
            &rt,
            alloc,
            text.as_str(),
            MachineFault::OutOfRange(key, None),
        );
    }
    let base = MachineKey::LatencyBase;
    for (latency, fault) in [
        (
            "self = 1\nlocal = 1\nbase = 5\nbase = 5",
            MachineFault::NotToml,
        ),
        (
            "self = 1\nlocal = 1\nbase = 0\nbytes_num = 1\nbytes_den = 64",
            missing(MachineKey::LatencyHop),
        ),
        (
            "self = 1\nlocal = 1\nbase = \"5\"\nhop = 0\nbytes_num = 1\nbytes_den = 64",
            MachineFault::OutOfRange(base, None),
        ),
        (
            "self = 1\nlocal = 1\nbase = 0\nhop = 0\nbytes_num = 1\nbytes_den = 64",
            MachineFault::OutOfRange(base, Some(0)),
        ),
        (
            "self = 1\nlocal = 1\nbase = 5\nhop = 4194305\nbytes_num = 1\nbytes_den = 64",
            MachineFault::OutOfRange(MachineKey::LatencyHop, Some(4_194_305)),
        ),
    ] {
        let text = file(alloc, TORUS, PLACE, SPEED, latency)?;
        refused(&rt, alloc, text.as_str(), fault);
    }
    let slow = file(alloc, TORUS, PLACE, "num = 1", LATENCY)?;
    refused(&rt, alloc, slow.as_str(), missing(MachineKey::SpeedDen));
    Ok(())
}
