// What a run leaves in a folder, and what another finds there.
use crate::ran::{AGAIN, AGAIN_PRINTS, FIRST_SET, FIRST_SET_PRINTS, disks, prints, prints_over};
use std::fs;
use std::test::Fail;

#[test]
fn a_second_run_finds_the_first_ones_site(rt: HostRuntime) -> Result<(), Fail> {
    let _ = fs::remove_dir_all(&rt, "gtmr_two_runs");
    prints(&rt, &rt, "gtmr_two_runs", FIRST_SET, FIRST_SET_PRINTS);
    prints(&rt, &rt, "gtmr_two_runs", AGAIN, AGAIN_PRINTS);
    fs::remove_dir_all(&rt, "gtmr_two_runs")?;
    Ok(())
}

#[test]
fn no_fault_and_no_crash_is_played_on_a_folder(rt: HostRuntime) -> Result<(), Fail> {
    let _ = fs::remove_dir_all(&rt, "gtmr_played");
    prints(
        &rt,
        &rt,
        "gtmr_played",
        "CREATE A R\nSTART A PRIMARY\nFUSE A 1\nCRASH A 0\nSTOP A\n",
        "A CREATED\nA PRIMARY 1 FROM 1\nA NOTSIMULATED\nA NOTSIMULATED\nA DOWN 0\n",
    );
    fs::remove_dir_all(&rt, "gtmr_played")?;
    Ok(())
}

#[test]
fn nothing_is_made_before_the_first_write(rt: HostRuntime) {
    let script = "ATTACH\nSHOW A\n";
    prints(&rt, &rt, "gtmr_none", script, "ATTACH EMPTY\nA NOSITE\n");
    assert!(rt; fs::metadata(&rt, "gtmr_none").is_err());
}

#[test]
fn a_folder_is_one_programs_at_a_time(rt: HostRuntime) -> Result<(), Fail> {
    let _ = fs::remove_dir_all(&rt, "gtmr_locked");
    let mut first = disks(&rt, &rt, "gtmr_locked");
    prints_over(&rt, &rt, &mut first, FIRST_SET, FIRST_SET_PRINTS);
    let mut second = disks(&rt, &rt, "gtmr_locked");
    prints_over(&rt, &rt, &mut second, "ATTACH\n", "ATTACH DISKFAULT 1\n");
    prints(
        &rt,
        &rt,
        "gtmr_locked",
        "ATTACH\nATTACH\nCREATE B R\n",
        "ATTACH DISKFAULT 1\nATTACH DISKFAULT 2\nB DISKFAULT 3\n",
    );
    drop(first);
    // the disks that were refused take the folder once it's let go
    prints_over(&rt, &rt, &mut second, AGAIN, AGAIN_PRINTS);
    fs::remove_dir_all(&rt, "gtmr_locked")?;
    Ok(())
}
