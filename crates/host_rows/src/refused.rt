// What the machine refuses: each operation that fails is counted, and answered as a fault.
use crate::ran::{disks, prints, prints_over};
use repl_disk::Disk;
use repl_host::HostDisk;
use std::fs;
use std::fs::Permissions;
use std::os::unix::fs::PermissionsExt;
use std::test::Fail;

#[test]
fn a_file_in_the_folders_place_is_a_fault(rt: HostRuntime) -> Result<(), Fail> {
    fs::write(&rt, "gtmr_plain", b"".as_slice())?;
    prints(
        &rt,
        &rt,
        "gtmr_plain",
        "CREATE A R\nCREATE A R\n",
        "A DISKFAULT 1\nA DISKFAULT 2\n",
    );
    fs::remove_file(&rt, "gtmr_plain")?;
    Ok(())
}

#[test]
fn a_folder_in_a_files_place_is_a_fault(rt: HostRuntime) -> Result<(), Fail> {
    let _ = fs::remove_dir_all(&rt, "gtmr_among");
    fs::create_dir_all(&rt, "gtmr_among/1/24")?;
    prints(
        &rt,
        &rt,
        "gtmr_among",
        "CREATE A R\nSTART A PRIMARY\nSTOP A\n",
        "A CREATED\nA DISKFAULT 1\nA STOPPED 1\n",
    );
    fs::remove_dir_all(&rt, "gtmr_among")?;
    Ok(())
}

#[test]
fn each_call_that_fails_is_counted(rt: HostRuntime) -> Result<(), Fail> {
    let _ = fs::remove_dir_all(&rt, "gtmr_counted");
    let mut disk = HostDisk::new(rt.alloc(), rt, "gtmr_counted", 1)?;
    let mut buf = [0u8; 4];
    assert!(rt; matches!(disk.len(7), Ok(0)));
    assert!(rt; disk.read_at(7, 0, &mut buf).is_err());
    assert_eq!(rt; disk.faults(), 1);
    assert!(rt; disk.write_at(7, 0, b"abc").is_ok());
    assert!(rt; disk.read_at(7, 0, &mut buf).is_err());
    assert_eq!(rt; disk.faults(), 2);
    assert!(rt; disk.write_at(7, 3, b"d").is_ok());
    assert!(rt; disk.sync(7).is_ok());
    assert!(rt; disk.read_at(7, 0, &mut buf).is_ok());
    assert!(rt; buf == *b"abcd");
    assert!(rt; matches!(disk.len(7), Ok(4)));
    assert_eq!(rt; disk.faults(), 2);
    fs::remove_dir_all(&rt, "gtmr_counted")?;
    Ok(())
}

#[test]
fn a_folder_that_may_not_be_written_is_a_fault(rt: HostRuntime) -> Result<(), Fail> {
    let _ = fs::remove_dir_all(&rt, "gtmr_read_only");
    fs::create_dir_all(&rt, "gtmr_read_only")?;
    fs::set_permissions(&rt, "gtmr_read_only", Permissions::from_mode(0o555))?;
    if fs::write(&rt, "gtmr_read_only/probe", b"".as_slice()).is_err() {
        prints(
            &rt,
            &rt,
            "gtmr_read_only",
            "ATTACH\nCREATE A R\nCREATE A R\n",
            "ATTACH EMPTY\nA DISKFAULT 1\nA DISKFAULT 2\n",
        );
    }
    fs::set_permissions(&rt, "gtmr_read_only", Permissions::from_mode(0o755))?;
    fs::remove_dir_all(&rt, "gtmr_read_only")?;
    Ok(())
}

#[test]
fn behind_a_failed_sync_all_calls_fail(rt: HostRuntime) -> Result<(), Fail> {
    let _ = fs::remove_dir_all(&rt, "gtmr_unsynced");
    fs::create_dir_all(&rt, "gtmr_unsynced")?;
    // the names in a folder that can't be read can't be synced
    fs::set_permissions(&rt, "gtmr_unsynced", Permissions::from_mode(0o333))?;
    let is_bound = fs::read_dir(&rt, "gtmr_unsynced").is_err();
    let mut disks = disks(&rt, &rt, "gtmr_unsynced");
    if is_bound {
        prints_over(&rt, &rt, &mut disks, "CREATE A R\n", "A DISKFAULT 1\n");
    }
    fs::set_permissions(&rt, "gtmr_unsynced", Permissions::from_mode(0o755))?;
    if is_bound {
        let script = "CREATE A R\nATTACH\n";
        let want = "A DISKFAULT 2\nATTACH DISKFAULT 3\n";
        prints_over(&rt, &rt, &mut disks, script, want);
    }
    fs::remove_dir_all(&rt, "gtmr_unsynced")?;
    Ok(())
}
