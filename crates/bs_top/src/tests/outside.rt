// The files and streams of the machine that the tests run on.
use super::fixtures::EXCHANGE;
use crate::{Status, perform_alone};
use bs_desk::{Desk, HostDesk, Port, write_all};
use std::fs;
use std::test::Fail;

// No file can be made in a folder that isn't there, and nothing can be written to a full device.
#[test]
fn write_faults(rt: HostRuntime) -> Result<(), Fail> {
    let name = "bs_top-test.sd";
    let mut desk = HostDesk::new(&rt);
    desk.create(name)?;
    write_all(&mut desk, Port::File, EXCHANGE.as_bytes())?;
    for into in ["bs_top-no-folder/log", "/dev/full"] {
        let mut words = Vec::new(rt.alloc());
        for word in ["emulate", name, into] {
            words.push(String::from_str(rt.alloc(), word)?)?;
        }
        let status = perform_alone(rt.alloc(), words.as_slice(), &mut desk);
        assert_eq!(rt; status, Status::WriteFault);
    }
    fs::remove_file(&rt, name)?;
    Ok(())
}
