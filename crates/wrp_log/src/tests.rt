// The bytes of logs, each refusal, and a log that is stopped at each call of its disk.
ghost use Rattle.std.specs.Prelude.{◌≡◌, ◌≤◌, ◌^◌, false, length, IfOk};
ghost use Rattle.wrp_log.specs.Logs.{IsOn};

use crate::{AppendFault, Log, OpenFault};
use std::alloc::{AllocError, Global};
use std::process::Abort;
use std::test::Fail;
use wrp_disk::{Choice, Disk, MemDisk, SteadyDisk};

#[derive(Debug, Drop)]
enum Refusal {
    Open(OpenFault),
    Append(AppendFault),
    Failed,
    OtherPayload,
    Memory,
}

impl From<AllocError> for Refusal {
    fn from(_: AllocError) -> Self {
        Refusal::Memory
    }
}

impl From<OpenFault> for Refusal {
    fn from(fault: OpenFault) -> Self {
        Refusal::Open(fault)
    }
}

impl From<AppendFault> for Refusal {
    fn from(fault: AppendFault) -> Self {
        Refusal::Append(fault)
    }
}

/// The log of a disk, which is begun where it is fresh.
fn begun<D: Disk>(alloc: Global, disk: &mut D) -> Result<Log, Refusal>
    ensures on { IfOk result (λ log. IsOn log (D.meaning disk.new)) }
    ensures begun { IfOk result (λ log. log.fresh ≡ false) }
    ensures going { IfOk result (λ log. log.stopped ≡ false) }
{
    let mut log = Log::open(alloc, disk)?;
    if log.fresh() {
        log.begin(disk)?;
    }
    Ok(log)
}

/// Opens the log and adds a payload.
fn add<D: Disk>(alloc: Global, disk: &mut D, payload: &[u8]) -> Result<(), Refusal>
    requires { length payload.now ≤ 2 ^ 24 }
{
    let mut log = begun(alloc, disk)?;
    log.append(disk, payload)?;
    Ok(())
}

/// The payloads of the tests, by number.
fn payload(number: u64) -> &'static [u8]
    ensures { length result.now ≤ 2 ^ 24 }
{
    match number {
        0 => b"t 5 0+ 0-".as_slice(),
        1 => b"".as_slice(),
        2 => b"\x01\x01".as_slice(),
        3 => b"postman".as_slice(),
        _ => b"b".as_slice(),
    }
}

/// Adds the first payloads one by one, and answers how many were acknowledged.
fn add_all<D: Disk>(alloc: Global, disk: &mut D, count: u64) -> u64 {
    for number in 0..count {
        if add(alloc, disk, payload(number)).is_err() {
            return number;
        }
    }
    count
}

/// Opens a log and replays it, and answers how many of the first payloads it has.
fn replay_all<D: Disk>(alloc: Global, disk: &mut D) -> Result<u64, Refusal> {
    let mut log = Log::open(alloc, disk)?;
    let count = log.count();
    for number in 0..count {
        match log.replay(disk) {
            Ok(Some(bytes)) if bytes == payload(number) => {}
            Ok(_) => return Err(Refusal::OtherPayload),
            Err(_) => return Err(Refusal::Failed),
        }
    }
    Ok(count)
}

#[test]
fn a_log_has_these_bytes(rt: HostRuntime) -> Result<(), Fail> {
    let mut disk = MemDisk::new(rt.alloc(), b"", 40)?;
    add(rt.alloc(), &mut disk, b"t 5 0+ 0-")?;
    let bytes = disk.image(Choice::Old)?;
    assert_eq!(rt;
        bytes.as_slice(),
        b"WRPLOG02\x01\0\0\0\x09t 5 0+ 0-\0".as_slice()
    );
    assert_eq!(rt; replay_all(rt.alloc(), &mut disk)?, 1);
    Ok(())
}

/// How the log of these bytes is opened: the number of its payloads, and its version.
fn opened(alloc: Global, bytes: &[u8]) -> Result<(u64, u8), OpenFault>
    requires { length bytes.now ≤ 64 }
{
    let mut disk = MemDisk::new(alloc, bytes, 64)?;
    let log = Log::open(alloc, &mut disk)?;
    Ok((log.count(), log.version()))
}

#[test]
fn logs_are_opened_or_refused(rt: HostRuntime) {
    let alloc = rt.alloc();
    assert_eq!(rt;
        opened(alloc, b"WRPLOG02\x07\0\0\0\x09t 5 0+ 0-\0"),
        Ok((0, 2))
    );
    assert_eq!(rt; opened(alloc, b"WRPLOG01\x01\0\0\0\x01b\0"), Ok((1, 1)));
    assert_eq!(rt;
        opened(alloc, b"\x01\x01\x01\x01\x01\x01\x01\x01\x01"),
        Ok((0, 2))
    );
    let broken = OpenFault::Broken { at: 8 };
    assert_eq!(rt; opened(alloc, b"WRPLOG02\x01\0\0\0\x09t"), Err(broken));
    assert_eq!(rt; opened(alloc, b"WRPLOG01\x01\x01\0\0\x01t"), Err(broken));
    let other = OpenFault::NotALog { length: 10 };
    assert_eq!(rt; opened(alloc, b"AAAAAAAAAA"), Err(other));
}

/// Why the first payload isn't added to a fresh disk of this limit.
fn refused(alloc: Global, limit: u64) -> Option<AppendFault>
    requires { limit ≤ 2 ^ 40 }
{
    let mut disk = MemDisk::new(alloc, b"", limit).ok()?;
    match add(alloc, &mut disk, payload(0)) {
        Err(Refusal::Append(fault)) => Some(fault),
        _ => None,
    }
}

#[test]
fn a_full_disk_is_refused(rt: HostRuntime) {
    let head = AppendFault::Full {
        length: 9,
        limit: 8,
    };
    assert_eq!(rt; refused(rt.alloc(), 8), Some(head));
    let whole = AppendFault::Full {
        length: 23,
        limit: 22,
    };
    assert_eq!(rt; refused(rt.alloc(), 22), Some(whole));
    assert_eq!(rt; refused(rt.alloc(), 23), None);
}

#[test]
fn a_steady_disk_holds_a_log(rt: HostRuntime) -> Result<(), Fail> {
    let mut disk = SteadyDisk::new(rt.alloc(), 100)?;
    assert_eq!(rt; add_all(rt.alloc(), &mut disk, 5), 5);
    assert_eq!(rt; replay_all(rt.alloc(), &mut disk)?, 5);
    Ok(())
}

/// How many payloads a crash leaves in each image of a disk: the fewest and the most.
fn left(rt: &impl Abort, alloc: Global, disk: &MemDisk) -> Result<(u64, u64), Refusal> {
    let mut fewest = u64::MAX;
    let mut most = 0;
    for choice in [Choice::Old, Choice::New, Choice::Ones, Choice::Short] {
        let image = disk.image(choice)?;
        assert!(rt; image.len() <= 64);
        let mut restarted = MemDisk::new(alloc, &image, 64)?;
        let found = replay_all(alloc, &mut restarted)?;
        fewest = fewest.min(found);
        most = most.max(found);
    }
    Ok((fewest, most))
}

#[test]
fn each_stop_leaves_what_was_acknowledged(rt: HostRuntime) -> Result<(), Fail> {
    for stop in 0..60 {
        let mut disk = MemDisk::new(rt.alloc(), b"", 64)?;
        disk.stop_after(stop);
        let kept = add_all(rt.alloc(), &mut disk, 5);
        let (fewest, most) = left(&rt, rt.alloc(), &disk)?;
        assert!(rt; kept <= fewest && most <= kept.saturating_add(1));
    }
    Ok(())
}

/// Upgrades the log of a disk, and answers its version afterwards.
fn upgrade<D: Disk>(alloc: Global, disk: &mut D) -> Result<u8, Refusal> {
    let mut log = Log::open(alloc, disk)?;
    if log.fresh() || log.version() != 1 {
        return Err(Refusal::OtherPayload);
    }
    match log.upgrade(disk) {
        Ok(()) => Ok(log.version()),
        Err(_) => Err(Refusal::Failed),
    }
}

#[test]
fn a_log_of_version_1_is_upgraded(rt: HostRuntime) -> Result<(), Fail> {
    for stop in 0..12 {
        let bytes = b"WRPLOG01\x01\0\0\0\x09t 5 0+ 0-\0";
        let mut disk = MemDisk::new(rt.alloc(), bytes, 64)?;
        disk.stop_after(stop);
        let upgraded = upgrade(rt.alloc(), &mut disk).is_ok();
        assert_eq!(rt; left(&rt, rt.alloc(), &disk)?, (1, 1));
        let new = disk.image(Choice::Old)?;
        assert_eq!(rt; new.get(7).copied() == Some(b'2'), upgraded);
    }
    Ok(())
}
