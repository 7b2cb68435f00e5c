use crate::{Desk, DeskFault, HostDesk, MemoryDesk, Op, Port, ReadAllFault, read_all, write_all};
use std::fs;
use std::test::Fail;

const TEXT: &[u8] = b"status settled\nblocks 3 span 20\nend 0 12\n";

#[test]
fn a_desk_in_memory_passes_pieces(rt: HostRuntime) -> Result<(), Fail> {
    let mut desk = MemoryDesk::new(rt.alloc(), 16);
    desk.put_file("report", TEXT)?;
    assert_eq!(rt; desk.open("report"), Ok(true));
    let mut room = [0; 64];
    assert_eq!(rt; desk.read(&mut room), Ok(16));
    desk.put_file("report", b"other")?;
    assert_eq!(rt; desk.read(&mut room), Ok(16));
    assert_eq!(rt; desk.read(&mut room), Ok(9));
    assert_eq!(rt; &room[..9], b"end 0 12\n".as_slice());
    assert_eq!(rt; desk.read(&mut room), Ok(0));
    assert_eq!(rt;
        desk.file("report").ok_or("no report")?,
        b"other".as_slice()
    );
    assert_eq!(rt; desk.file("repor"), None);
    assert_eq!(rt; desk.open("repor"), Ok(false));
    assert_eq!(rt; desk.faults(), (0, 0));
    Ok(())
}

#[test]
fn the_created_file_grows_at_its_end(rt: HostRuntime) -> Result<(), Fail> {
    let mut desk = MemoryDesk::new(rt.alloc(), 16);
    desk.create("log")?;
    desk.put_file("log", b"x")?;
    assert_eq!(rt; desk.write(Port::File, TEXT), Ok(16));
    assert_eq!(rt;
        desk.file("log").ok_or("no log")?,
        b"xstatus settled\nb".as_slice()
    );
    assert_eq!(rt; desk.written(Port::File), b"status settled\nb".as_slice());
    Ok(())
}

#[test]
fn named_calls_fail(rt: HostRuntime) -> Result<(), Fail> {
    let mut desk = MemoryDesk::new(rt.alloc(), 16);
    desk.put_file("report", TEXT)?;
    desk.fail(Op::Open, 2)?;
    desk.fail(Op::Read, 1)?;
    desk.fail(Op::Create, 1)?;
    desk.fail(Op::Write, 2)?;
    assert_eq!(rt; desk.open("report"), Ok(true));
    assert_eq!(rt; desk.open("report"), Err(DeskFault::Failed));
    let mut room = [0; 64];
    assert_eq!(rt; desk.read(&mut room), Err(DeskFault::Failed));
    assert_eq!(rt; desk.read(&mut room), Ok(16));
    assert_eq!(rt; desk.create("log"), Err(DeskFault::Failed));
    assert_eq!(rt; desk.file("log"), None);
    let cut = write_all(&mut desk, Port::Out, TEXT);
    assert_eq!(rt; cut, Err(DeskFault::Failed));
    assert_eq!(rt; desk.written(Port::Out), &TEXT[..16]);
    assert_eq!(rt; desk.faults(), (2, 2));
    Ok(())
}

#[test]
fn whole_files_are_read_and_whole_texts_written(rt: HostRuntime) -> Result<(), Fail> {
    let mut desk = MemoryDesk::new(rt.alloc(), 16);
    desk.put_file("report", TEXT)?;
    let whole = read_all(rt.alloc(), &mut desk, "report", 41)?;
    assert_eq!(rt; whole.as_slice(), TEXT);
    let big = read_all(rt.alloc(), &mut desk, "report", 40).err();
    assert_eq!(rt; big, Some(ReadAllFault::TooBig(40)));
    let missing = read_all(rt.alloc(), &mut desk, "log", 40).err();
    assert_eq!(rt; missing, Some(ReadAllFault::Missing));

    write_all(&mut desk, Port::Out, TEXT)?;
    write_all(&mut desk, Port::Err, b"")?;
    assert_eq!(rt; desk.written(Port::Out), TEXT);
    assert_eq!(rt; desk.written(Port::Err), b"".as_slice());
    desk.create("report")?;
    assert_eq!(rt; desk.file("report").ok_or("no report")?, b"".as_slice());
    write_all(&mut desk, Port::File, &TEXT[..20])?;
    assert_eq!(rt; desk.file("report").ok_or("no report")?, &TEXT[..20]);
    Ok(())
}

#[test]
fn a_real_file_is_read_as_it_was_written(rt: HostRuntime) -> Result<(), Fail> {
    let name = "bs_desk-test.txt";
    let mut desk = HostDesk::new(&rt);
    desk.create(name)?;
    write_all(&mut desk, Port::File, TEXT)?;
    let whole = read_all(rt.alloc(), &mut desk, name, 41)?;
    assert_eq!(rt; whole.as_slice(), TEXT);
    fs::remove_file(&rt, name)?;
    assert_eq!(rt; desk.open(name), Ok(false));
    assert_eq!(rt; desk.write(Port::Err, b"\xff"), Err(DeskFault::Failed));
    Ok(())
}
