//! Files of the system.
use super::*;

fn expect_not_made(
    rt: &impl Abort,
    files: &HostRuntime,
    path: &str,
    blocks: u32,
    refusal: FileRefusal,
) {
    let made = FileDevice::create(files, path, blocks).err();
    expect_eq(rt, &(&path, &made), &(&path, &Some(refusal)));
}

fn expect_not_taken(rt: &impl Abort, files: &HostRuntime, path: &str, refusal: FileRefusal) {
    let taken = FileDevice::open(files, files.alloc(), path).err();
    expect_eq(rt, &(&path, &taken), &(&path, &Some(refusal)));
}

// Writes a device of three blocks, which gives none of them back, and syncs it.
fn write_each<D: Device>(rt: &impl Abort, device: &mut D) {
    expect_eq(rt, &device.count(), &3);
    for (n, byte) in &[(2, 7), (1, 8), (2, 9)] {
        expect_write(rt, device, *n, *byte, Ok(()));
        expect_unread(rt, device, *n, DeviceRefusal::Fault);
    }
    expect_no_block(rt, device, 3);
    expect_eq(rt, &device.sync(), &Ok(()));
    expect_eq(rt, &device.finish(), &Ok(()));
}

fn make(rt: &impl Abort, files: &HostRuntime, path: &str) -> Result<(), Fail> {
    let mut made = FileDevice::create(files, path, 3)?;
    write_each(rt, &mut made);
    Ok(())
}

fn take(rt: &impl Abort, files: &HostRuntime, path: &str) -> Result<(), Fail> {
    let (taken, blocks) = FileDevice::open(files, files.alloc(), path)?;
    expect_eq(rt, &taken.count(), &3);
    expect_blocks(rt, &blocks, &[0, 8, 9]);
    Ok(())
}

fn make_and_take(rt: &impl Abort, files: &HostRuntime, path: &str) -> Result<(), Fail> {
    make(rt, files, path)?;
    expect_not_made(rt, files, path, 1, FileRefusal::Disk);
    expect_length(rt, files, path, 12_288)?;
    take(rt, files, path)
}

#[test]
fn makes_takes_and_reads(rt: HostRuntime) -> Result<(), Fail> {
    make_folder(&rt, "patch_device_made")?;
    make_and_take(&rt, &rt, "patch_device_made/disk")?;
    fs::remove_dir_all(&rt, "patch_device_made")?;
    Ok(())
}

// A file of three blocks that is opened, and remembered.
fn remembering(files: &HostRuntime, path: &str) -> Result<FileDevice<File>, Fail> {
    let (device, blocks) = FileDevice::open(files, files.alloc(), path)?;
    Ok(device.remembering(files.alloc(), blocks.as_slice())?)
}

fn read_what_is_remembered(rt: &impl Abort, files: &HostRuntime, path: &str) -> Result<(), Fail> {
    let mut device = remembering(files, path)?;
    expect_all_filled(rt, &mut device, &[(0, 0), (1, 8), (2, 9)]);
    expect_write(rt, &mut device, 1, 5, Ok(()));
    expect_all_filled(rt, &mut device, &[(1, 5), (2, 9), (0, 0)]);
    expect_no_block(rt, &mut device, 3);
    // Another one writes to the file: what is read isn't what is remembered.
    let (mut other, _blocks) = FileDevice::open(files, files.alloc(), path)?;
    expect_write(rt, &mut other, 2, 6, Ok(()));
    expect_unread(rt, &mut device, 2, DeviceRefusal::Fault);
    expect_filled(rt, &mut device, 1, 5);
    expect_write(rt, &mut device, 2, 7, Ok(()));
    expect_filled(rt, &mut device, 2, 7);
    expect_eq(rt, &device.sync(), &Ok(()));
    expect_filled(rt, &mut device, 2, 7);
    Ok(())
}

#[test]
fn reads_what_it_remembers(rt: HostRuntime) -> Result<(), Fail> {
    make_folder(&rt, "patch_device_remembered")?;
    let path = "patch_device_remembered/disk";
    make(&rt, &rt, path)?;
    read_what_is_remembered(&rt, &rt, path)?;
    fs::remove_dir_all(&rt, "patch_device_remembered")?;
    Ok(())
}

fn count_taken(files: &HostRuntime, path: &str) -> Result<u32, FileRefusal> {
    Ok(FileDevice::open(files, files.alloc(), path)?.0.count())
}

// A file of this length is taken as so many blocks, or not at all, and stays as it is.
fn expect_taken(
    rt: &impl Abort,
    files: &HostRuntime,
    path: &str,
    length: u64,
    blocks: Option<u32>,
) -> Result<(), Fail> {
    make_file(files, path, length)?;
    let taken = count_taken(files, path);
    expect_eq(
        rt,
        &(&length, &taken),
        &(&length, &blocks.ok_or(FileRefusal::FileSize)),
    );
    expect_length(rt, files, path, length)
}

// Lengths of files, and how many blocks they are, where they are whole blocks and few enough.
const LENGTHS: [(u64, Option<u32>); 11] = [
    (0, None),
    (1, None),
    (4095, None),
    (4096, Some(1)),
    (4097, None),
    (143_359, None),
    (143_360, Some(35)),
    (16_777_216, Some(4096)),
    (16_777_217, None),
    (16_781_312, None),
    (17_179_869_184, None),
];

fn expect_none_made(rt: &impl Abort, files: &HostRuntime, path: &str) {
    for blocks in &[0, 4097, u32::MAX] {
        expect_not_made(rt, files, path, *blocks, FileRefusal::FileSize);
        assert!(rt; fs::metadata(files, path).is_err());
    }
}

fn expect_each_taken(rt: &impl Abort, files: &HostRuntime, path: &str) -> Result<(), Fail> {
    for (length, blocks) in &LENGTHS {
        expect_taken(rt, files, path, *length, *blocks)?;
    }
    Ok(())
}

#[test]
fn wants_whole_blocks(rt: HostRuntime) -> Result<(), Fail> {
    make_folder(&rt, "patch_device_lengths")?;
    expect_none_made(&rt, &rt, "patch_device_lengths/disk");
    expect_each_taken(&rt, &rt, "patch_device_lengths/disk")?;
    fs::remove_dir_all(&rt, "patch_device_lengths")?;
    Ok(())
}

// Paths of no file that can be written. The system lets nobody write the file of a program that runs.
const UNWRITABLE: [&str; 4] = [
    "",
    "patch_device_paths",
    "patch_device_paths/file/x",
    "/proc/self/exe",
];

fn expect_unwritable(rt: &impl Abort, files: &HostRuntime) {
    for path in &UNWRITABLE {
        expect_not_taken(rt, files, path, FileRefusal::Disk);
        expect_not_made(rt, files, path, 1, FileRefusal::Disk);
    }
    expect_not_taken(rt, files, "patch_device_paths/none", FileRefusal::Disk);
    expect_not_made(rt, files, "patch_device_paths/no/x", 1, FileRefusal::Disk);
}

#[test]
fn wants_a_file_that_can_be_written(rt: HostRuntime) -> Result<(), Fail> {
    make_folder(&rt, "patch_device_paths")?;
    make_file(&rt, "patch_device_paths/file", 4096)?;
    expect_unwritable(&rt, &rt);
    expect_length(&rt, &rt, "patch_device_paths/file", 4096)?;
    fs::remove_dir_all(&rt, "patch_device_paths")?;
    Ok(())
}

// Writes a device of three blocks without barriers, and opens it.
fn write_without_barriers(rt: &impl Abort, files: &HostRuntime, path: &str) -> Result<(), Fail> {
    let mut device = FileDevice::create(files, path, 3)?.without_barriers();
    write_each(rt, &mut device);
    take(rt, files, path)
}

#[test]
fn passes_its_syncs_over(rt: HostRuntime) -> Result<(), Fail> {
    make_folder(&rt, "patch_device_barriers")?;
    write_without_barriers(&rt, &rt, "patch_device_barriers/disk")?;
    fs::remove_dir_all(&rt, "patch_device_barriers")?;
    Ok(())
}
