// Real files, in the folder of the test.
use crate::names::LogNames;
use crate::vault::{DiskVault, Opening};
use cts_outside::{LogKind, PutFailed, Vault};
use std::fs;
use std::test::Fail;

#[test]
fn a_replaced_log_has_what_is_appended_alone(rt: HostRuntime) -> Result<(), Fail> {
    fs::create_dir_all(&rt, "vault_test")?;
    fs::write(&rt, "vault_test/tlm.bin", "an earlier log")?;
    let mut vault = DiskVault::new(
        &rt,
        Opening::Replaced,
        "vault_test/tlm.bin",
        "vault_test/cmd.bin",
    );
    assert_eq!(rt; vault.sync(LogKind::Tlm), Ok(()));
    assert_eq!(rt;
        fs::read(&rt, "vault_test/tlm.bin")?.as_slice(),
        b"an earlier log".as_slice()
    );
    assert_eq!(rt; vault.append(LogKind::Tlm, b"one"), Ok(()));
    assert_eq!(rt; vault.append(LogKind::Tlm, b"two"), Ok(()));
    assert_eq!(rt; vault.sync(LogKind::Tlm), Ok(()));
    assert_eq!(rt;
        fs::read(&rt, "vault_test/tlm.bin")?.as_slice(),
        b"onetwo".as_slice()
    );
    assert!(rt;
        fs::read(&rt, "vault_test/cmd.bin").is_err(),
        "a log without an append"
    );
    assert_eq!(rt; vault.faults, 0);
    fs::remove_dir_all(&rt, "vault_test")?;
    Ok(())
}

// The files of a running server have the second of its start in their names.
#[test]
fn log_files_are_named_after_the_second(rt: HostRuntime) -> Result<(), Fail> {
    let names = LogNames::of_second(rt.alloc(), 1_796_000_000)?;
    assert_eq!(rt; names.tlm.as_str(), "1796000000_tlm.bin");
    assert_eq!(rt; names.cmd.as_str(), "1796000000_cmd.bin");
    Ok(())
}

#[test]
fn a_new_log_is_in_no_old_file(rt: HostRuntime) -> Result<(), Fail> {
    fs::create_dir_all(&rt, "new_vault_test")?;
    fs::write(&rt, "new_vault_test/1796000000_tlm.bin", "an earlier log")?;
    let mut vault = DiskVault::new(
        &rt,
        Opening::New,
        "new_vault_test/1796000000_tlm.bin",
        "new_vault_test/1796000000_cmd.bin",
    );
    let rows = [
        (LogKind::Tlm, b"one".as_slice(), Err(PutFailed)),
        (LogKind::Cmd, b"two", Ok(())),
        (LogKind::Tlm, b"one", Err(PutFailed)),
        (LogKind::Cmd, b"too", Ok(())),
    ];
    for (kind, bytes, answer) in rows {
        assert_eq!(rt; vault.append(kind, bytes), answer);
        assert_eq!(rt; vault.sync(kind), Ok(()));
    }
    assert_eq!(rt;
        fs::read(&rt, "new_vault_test/1796000000_tlm.bin")?.as_slice(),
        b"an earlier log".as_slice()
    );
    assert_eq!(rt;
        fs::read(&rt, "new_vault_test/1796000000_cmd.bin")?.as_slice(),
        b"twotoo".as_slice()
    );
    assert_eq!(rt; vault.faults, 2);
    fs::remove_dir_all(&rt, "new_vault_test")?;
    Ok(())
}

#[test]
fn each_part_of_a_log_has_a_file(rt: HostRuntime) -> Result<(), Fail> {
    fs::create_dir_all(&rt, "parts_test")?;
    let mut vault = DiskVault::new(
        &rt,
        Opening::New,
        "parts_test/1796000000_tlm.bin",
        "parts_test/1796000000_cmd.bin",
    );
    let rows = [
        ("parts_test/1796000000_tlm.bin", b"one".as_slice()),
        ("parts_test/1796000000_tlm_1.bin", b"two"),
        ("parts_test/1796000000_tlm_2.bin", b"three"),
    ];
    for (_, bytes) in rows {
        assert_eq!(rt; vault.append(LogKind::Tlm, bytes), Ok(()));
        assert_eq!(rt; vault.sync(LogKind::Tlm), Ok(()));
        assert_eq!(rt; vault.part(LogKind::Tlm), Ok(()));
    }
    for (name, bytes) in rows {
        assert_eq!(rt; fs::read(&rt, name)?.as_slice(), bytes);
    }
    assert!(rt;
        fs::read(&rt, "parts_test/1796000000_tlm_3.bin").is_err(),
        "a part without an append"
    );
    fs::remove_dir_all(&rt, "parts_test")?;
    Ok(())
}
