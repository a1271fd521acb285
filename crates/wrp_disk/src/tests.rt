// Each call once.
use crate::{Choice, Disk, FileDisk, MemDisk, SteadyDisk};
use std::fs;
use std::test::Fail;
use wrp_out::Failed;

#[test]
fn a_write_is_pending_until_a_sync(rt: HostRuntime) -> Result<(), Fail> {
    let mut disk = MemDisk::new(rt.alloc(), b"post", 9)?;
    disk.write_at(2, b"man")?;
    assert_eq!(rt; disk.len(), Ok(5));
    assert_eq!(rt; disk.image(Choice::Old)?.as_slice(), b"post".as_slice());
    assert_eq!(rt; disk.image(Choice::New)?.as_slice(), b"poman".as_slice());
    assert_eq!(rt;
        disk.image(Choice::Ones)?.as_slice(),
        b"po\x01\x01\x01".as_slice()
    );
    assert_eq!(rt;
        disk.image(Choice::Short)?.as_slice(),
        b"po\x01\x01".as_slice()
    );
    disk.sync()?;
    assert_eq!(rt; disk.image(Choice::Old)?.as_slice(), b"poman".as_slice());
    Ok(())
}

#[test]
fn named_calls_fail_and_those_past_the_stop(rt: HostRuntime) -> Result<(), Fail> {
    let mut disk = MemDisk::new(rt.alloc(), b"post", 9)?;
    disk.fail_calls(&[2])?;
    assert_eq!(rt; disk.len(), Ok(4));
    assert_eq!(rt; disk.sync(), Err(Failed));
    let mut piece = [0; 3];
    assert_eq!(rt; disk.read(1, &mut piece), Ok(3));
    assert_eq!(rt; piece.as_slice(), b"ost".as_slice());
    disk.stop_after(3);
    assert_eq!(rt; disk.read(1, &mut piece), Err(Failed));
    assert_eq!(rt; disk.limit(), 9);
    assert_eq!(rt; disk.starved(), 0);
    Ok(())
}

#[test]
fn a_failed_write_is_pending(rt: HostRuntime) -> Result<(), Fail> {
    let mut disk = MemDisk::new(rt.alloc(), b"post", 9)?;
    disk.fail_calls(&[1])?;
    assert_eq!(rt; disk.write_at(4, b"man"), Err(Failed));
    assert_eq!(rt; disk.image(Choice::New)?.as_slice(), b"post".as_slice());
    assert_eq!(rt;
        disk.image(Choice::Ones)?.as_slice(),
        b"post\x01\x01\x01".as_slice()
    );
    Ok(())
}

#[test]
fn a_steady_disk_gives_what_was_written(rt: HostRuntime) -> Result<(), Fail> {
    let mut disk = SteadyDisk::new(rt.alloc(), 8)?;
    disk.write_at(0, b"post")?;
    disk.write_at(2, b"man")?;
    disk.sync()?;
    let mut piece = [0; 8];
    assert_eq!(rt; disk.read(1, &mut piece), Ok(4));
    assert_eq!(rt; piece.as_slice(), b"oman\0\0\0\0".as_slice());
    assert_eq!(rt; disk.len(), Ok(5));
    Ok(())
}

#[test]
fn a_file_is_a_disk(rt: HostRuntime) -> Result<(), Fail> {
    let name = "wrp_disk_bytes";
    {
        let mut disk = FileDisk::new(&rt, name);
        assert_eq!(rt; disk.len(), Ok(0));
        disk.write_at(0, b"postman")?;
        disk.write_at(4, b"age")?;
        disk.sync()?;
    }
    let mut disk = FileDisk::new(&rt, name);
    let mut piece = [0; 9];
    assert_eq!(rt; disk.read(2, &mut piece), Ok(5));
    assert_eq!(rt; piece.as_slice(), b"stage\0\0\0\0".as_slice());
    fs::remove_file(&rt, name)?;
    Ok(())
}

#[test]
fn a_missing_folder_is_a_fault(rt: HostRuntime) {
    let mut disk = FileDisk::new(&rt, "wrp_disk_missing/bytes");
    assert_eq!(rt; disk.sync(), Err(Failed));
}
