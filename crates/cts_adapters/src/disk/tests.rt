// Real files, in the folder of the test.
use crate::disk::DiskFiles;
use cts_outside::{FileGot, Files};
use std::fs;
use std::test::Fail;

// One read of three bytes.
fn read<F: Files>(files: &mut F, name: &str, from: u64) -> (FileGot, [u8; 3]) {
    let mut buffer = [b'-'; 3];
    let got = files.read(name, from, &mut buffer);
    (got, buffer)
}

#[test]
fn real_files_are_read_in_pieces(rt: HostRuntime) -> Result<(), Fail> {
    fs::create_dir_all(&rt, "disk_test/folder")?;
    fs::write(&rt, "disk_test/a", "hello")?;
    fs::write(&rt, "disk_test/b", "")?;
    let mut files = DiskFiles::new(&rt);
    let rows = [
        ("disk_test/a", 0, FileGot::Got(3), *b"hel"),
        ("disk_test/a", 3, FileGot::Got(2), *b"lo-"),
        ("disk_test/a", 5, FileGot::End, *b"---"),
        ("disk_test/b", 0, FileGot::End, *b"---"),
        ("disk_test/a", 1, FileGot::Got(3), *b"ell"),
        ("disk_test/c", 0, FileGot::Absent, *b"---"),
        ("", 0, FileGot::Absent, *b"---"),
        ("disk_test/folder", 0, FileGot::Failed, *b"---"),
        ("disk_test/folder/c", 0, FileGot::Absent, *b"---"),
        ("disk_test/a/c", 0, FileGot::Failed, *b"---"),
        ("disk_test/a", 1 << 63, FileGot::End, *b"---"),
        ("disk_test/a", u64::MAX, FileGot::End, *b"---"),
        ("./disk_test/a", 4, FileGot::Got(1), *b"o--"),
    ];
    for (name, from, got, buffer) in rows {
        assert_eq!(rt;
            read(&mut files, name, from),
            (got, buffer),
            "{name} {from}"
        );
    }
    assert_eq!(rt; files.faults, 2);
    assert_eq!(rt; files.absences, 3);
    fs::remove_dir_all(&rt, "disk_test")?;
    Ok(())
}
