//! Tests of a disk over a file, and of a journal in a file. Each has a file of its own in the folder that it runs in.
//! The calls of a disk and of a journal stand each in a function of its own, without what its contract says: no test needs
//! it.

use decision_journal::{Journal, JournalFault, JournalRecord, Registrations};
use ots_outside::{Disk, DiskRefusal, FileDisk};
use std::alloc::Global;
use std::fs::File;
use std::io::ErrorKind;
use std::os::unix::fs::FileExt;
use std::{fs, io};

/// A disk over the file of this name, which is made where there is none, and this folder. A fresh one has no octets.
fn file_disk(rt: &HostRuntime, name: &str, folder: &str, fresh: bool) -> io::Result<FileDisk> {
    let mut options = File::options();
    options.read(true).write(true).create(true).truncate(fresh);
    let folder = File::open(rt, folder)?;
    Ok(FileDisk::new(options.open(rt, name)?, Some(folder)))
}

/// Writes behind the first four million octets, and syncs.
fn keep(disk: &mut FileDisk, octets: &[u8]) -> Result<(), DiskRefusal> {
    disk.write_at(4_000_000, octets)?;
    disk.sync()
}

/// Whether a new file takes octets, and others over them.
fn writes_over(rt: &HostRuntime, octets: &[u8]) -> io::Result<bool> {
    let mut disk = file_disk(rt, "ots_file_disk", ".", true)?;
    Ok(keep(&mut disk, &[1; 150]).is_ok() && keep(&mut disk, octets).is_ok())
}

/// What that file answers, opened anew, to a read of this piece.
fn read_again(
    rt: &HostRuntime,
    place: u64,
    into: &mut [u8],
) -> io::Result<Result<(), DiskRefusal>> {
    let mut disk = file_disk(rt, "ots_file_disk", ".", false)?;
    Ok(disk.read_at(place, into))
}

/// Whether it gives these octets back.
fn gives_back(rt: &HostRuntime, octets: &[u8]) -> io::Result<bool> {
    let mut back = vec![in rt.alloc(); 0; octets.len()]?;
    let answer = read_again(rt, 4_000_000, &mut back)?;
    Ok(answer.is_ok() && back.as_slice() == octets)
}

#[test]
fn a_file_keeps_what_is_synced(rt: HostRuntime) -> io::Result<()> {
    let octets = vec![in rt.alloc(); 2; 70_120]?;
    assert!(rt; writes_over(&rt, &octets)?);
    assert!(rt; gives_back(&rt, &octets)?);
    // There is no octet more.
    assert!(rt; read_again(&rt, 4_070_120, &mut [0])? == Err(DiskRefusal::Failed));
    fs::remove_file(&rt, "ots_file_disk")
}

/// What a sync of this file and this folder answers.
fn synced(rt: &HostRuntime, name: &str, folder: &str) -> io::Result<Result<(), DiskRefusal>> {
    let mut disk = file_disk(rt, name, folder, true)?;
    Ok(disk.sync())
}

#[test]
fn what_cannot_be_synced_is_a_fault(rt: HostRuntime) -> io::Result<()> {
    assert!(rt; synced(&rt, "/dev/null", ".")? == Err(DiskRefusal::Failed));
    assert!(rt; synced(&rt, "ots_file_folder", "/dev/null")? == Err(DiskRefusal::Failed));
    fs::remove_file(&rt, "ots_file_folder")
}

/// The next life of the journal in the file of this name.
fn next_life(rt: &HostRuntime, name: &str, fresh: bool) -> io::Result<Journal<FileDisk>> {
    let disk = file_disk(rt, name, ".", fresh)?;
    match Journal::load(rt.alloc(), disk, 400, 1) {
        Ok(journal) => Ok(journal),
        Err(_) => Err(ErrorKind::InvalidData.into()),
    }
}

/// Appends a decision that names no registration.
fn decide(alloc: Global, journal: &mut Journal<FileDisk>) -> Result<u32, JournalFault> {
    let items = Registrations::from_vec(Vec::new(alloc));
    journal.append(JournalRecord::Decision(1, 0, 1, None, false, items))
}

fn done(journal: &mut Journal<FileDisk>) -> Result<(), JournalFault> {
    journal.done(26)
}

fn reread(journal: &mut Journal<FileDisk>) -> Result<(), JournalFault> {
    journal.reopen()
}

fn life_of(journal: &Journal<FileDisk>) -> u32 {
    journal.life()
}

fn count_of(journal: &Journal<FileDisk>) -> usize {
    journal.standing().len()
}

fn first_life(rt: &HostRuntime) -> io::Result<Result<u32, JournalFault>> {
    let mut journal = next_life(rt, "ots_file_journal", true)?;
    Ok(decide(rt.alloc(), &mut journal))
}

/// Which life comes, and how many records stand in it.
fn later_life(rt: &HostRuntime) -> io::Result<(u32, usize)> {
    let journal = next_life(rt, "ots_file_journal", false)?;
    Ok((life_of(&journal), count_of(&journal)))
}

fn life_with_done(rt: &HostRuntime) -> io::Result<Result<(), JournalFault>> {
    let mut journal = next_life(rt, "ots_file_journal", false)?;
    Ok(done(&mut journal))
}

#[test]
fn a_file_keeps_a_journal(rt: HostRuntime) -> io::Result<()> {
    assert!(rt; first_life(&rt)? == Ok(26));
    assert!(rt; later_life(&rt)? == (2, 1));
    assert!(rt; life_with_done(&rt)? == Ok(()));
    assert!(rt; later_life(&rt)? == (4, 0));
    fs::remove_file(&rt, "ots_file_journal")
}

/// A journal of one life, with a decision behind it or without.
fn one_life(rt: &HostRuntime, decided: bool) -> io::Result<Journal<FileDisk>> {
    let mut journal = next_life(rt, "ots_file_changed", true)?;
    if decided {
        let _ = decide(rt.alloc(), &mut journal);
    }
    Ok(journal)
}

/// Another octet in the file of that journal.
fn change(rt: &HostRuntime, place: u64, octet: u8) -> io::Result<()> {
    let mut options = File::options();
    options.write(true);
    options
        .open(rt, "ots_file_changed")?
        .write_all_at(&[octet], place)
}

/// What such a journal tells that is read again once an octet of its file is another.
fn changed(
    rt: &HostRuntime,
    decided: bool,
    place: u64,
    octet: u8,
) -> io::Result<Result<(), JournalFault>> {
    let mut journal = one_life(rt, decided)?;
    change(rt, place, octet)?;
    Ok(reread(&mut journal))
}

#[test]
fn a_changed_journal_is_refused_at_its_place(rt: HostRuntime) -> io::Result<()> {
    // The mark in front, and the number of the service.
    assert!(rt; changed(&rt, false, 0, 88)? == Err(JournalFault::BadHeader(0)));
    assert!(rt; changed(&rt, false, 15, 2)? == Err(JournalFault::BadHeader(15)));
    // The number of the life is told at the gate of its record, and so is a record that is gone.
    assert!(rt; changed(&rt, false, 25, 2)? == Err(JournalFault::BadRecord(16)));
    assert!(rt; changed(&rt, false, 16, 0)? == Err(JournalFault::BadRecord(16)));
    // The gate at the end may be anything but 1.
    assert!(rt; changed(&rt, false, 26, 7)? == Ok(()));
    assert!(rt; changed(&rt, false, 26, 1)? == Err(JournalFault::BadRecord(26)));
    // A later record that is gone is told at its own gate.
    assert!(rt; changed(&rt, true, 26, 0)? == Err(JournalFault::BadRecord(26)));
    fs::remove_file(&rt, "ots_file_changed")
}
