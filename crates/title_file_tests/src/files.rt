use std::fs;
use std::os::unix::fs::{MetadataExt, PermissionsExt, symlink};
use std::time::UNIX_EPOCH;
use title_disk::{Cabinet, Disk, DiskFault, OpenFault};
use title_file::Drawer;

const FRESH: &[u8] = b"fresh\n-";

// An empty folder of this name.
fn empty(rt: &HostRuntime, name: &str) -> bool {
    let _ = fs::remove_dir_all(rt, name);
    fs::create_dir(rt, name).is_ok()
}

// Whether the file of this name has these bytes.
fn has(rt: &HostRuntime, path: &str, bytes: &[u8]) -> bool {
    match fs::read(rt, path) {
        Ok(found) => found.as_slice() == bytes,
        Err(_) => false,
    }
}

// How many names a folder has.
fn count(rt: &HostRuntime, name: &str) -> usize {
    match fs::read_dir(rt, name) {
        Ok(names) => names.count(),
        Err(_) => 0,
    }
}

// Why a file isn't opened.
fn refused(rt: &HostRuntime, path: &str) -> Option<OpenFault> {
    match Drawer::new(rt, FRESH).open(rt.alloc(), path) {
        Ok(_) => None,
        Err(fault) => Some(fault),
    }
}

// Why a file isn't shared.
fn unshared(rt: &HostRuntime, path: &str) -> Option<OpenFault> {
    match Drawer::new(rt, FRESH).share(rt.alloc(), path) {
        Ok(_) => None,
        Err(fault) => Some(fault),
    }
}

// Whether a look at a file shows these bytes.
fn shows(rt: &HostRuntime, path: &str, bytes: &[u8]) -> bool {
    match Drawer::new(rt, FRESH).look(rt.alloc(), path) {
        Ok(found) => found.as_slice() == bytes,
        Err(_) => false,
    }
}

// Whether a file with these bytes is written to when it is opened; none where it isn't opened, or has others then.
fn writes_again(rt: &HostRuntime, path: &str, bytes: &[u8]) -> Option<bool> {
    fs::write(rt, path, bytes).ok()?;
    let file = fs::OpenOptions::new().write(true).open(rt, path).ok()?;
    file.set_modified(UNIX_EPOCH).ok()?;
    drop(file);
    if refused(rt, path).is_some() || !has(rt, path, bytes) {
        return None;
    }
    Some(fs::metadata(rt, path).ok()?.mtime() != 0)
}

#[test]
fn a_file_is_made_and_in_use(rt: HostRuntime) {
    assert!(rt; empty(&rt, "title_file_made"));
    let mut file = Drawer::new(&rt, FRESH)
        .open(rt.alloc(), "title_file_made/a.plant")
        .expect(&rt, "the file is made");
    assert!(rt; has(&rt, "title_file_made/a.plant", FRESH));
    assert!(rt; count(&rt, "title_file_made") == 1);
    assert!(rt; refused(&rt, "title_file_made/a.plant") == Some(OpenFault::InUse));
    assert!(rt; shows(&rt, "title_file_made/a.plant", FRESH));
    let bytes = file.read(rt.alloc()).expect(&rt, "the file is read");
    assert!(rt; bytes.as_slice() == FRESH);
    drop(file);
    assert!(rt; refused(&rt, "title_file_made/a.plant") == None);
    assert!(rt; fs::remove_dir_all(&rt, "title_file_made").is_ok());
}

#[test]
fn what_is_written_stands_in_the_file(rt: HostRuntime) {
    assert!(rt; empty(&rt, "title_file_written"));
    assert!(rt; fs::write(&rt, "title_file_written/a.plant", b"0123456789".as_slice()).is_ok());
    let mut file = Drawer::new(&rt, FRESH)
        .open(rt.alloc(), "title_file_written/a.plant")
        .expect(&rt, "the file is opened");
    let bytes = file.read(rt.alloc()).expect(&rt, "the file is read");
    assert!(rt; bytes.as_slice() == b"0123456789".as_slice());
    file.cut(bytes.len() / 2).expect(&rt, "the file is cut");
    file.sync().expect(&rt, "the file is synced");
    assert!(rt; has(&rt, "title_file_written/a.plant", b"01234"));
    file.write_at(0, b"ABC").expect(&rt, "the file is written");
    assert!(rt; has(&rt, "title_file_written/a.plant", b"ABC34"));
    file.write_at(0, b"abcdefgh")
        .expect(&rt, "the file is written");
    file.sync().expect(&rt, "the file is synced");
    assert!(rt; has(&rt, "title_file_written/a.plant", b"abcdefgh"));
    assert!(rt; matches!(file.read(rt.alloc()), Err(DiskFault::Failed)));
    drop(file);
    assert!(rt; shows(&rt, "title_file_written/a.plant", b"abcdefgh"));
    assert!(rt; fs::remove_dir_all(&rt, "title_file_written").is_ok());
}

#[test]
fn a_file_is_shared_or_written(rt: HostRuntime) {
    assert!(rt; empty(&rt, "title_file_shared"));
    assert!(rt; unshared(&rt, "title_file_shared/a.plant") == Some(OpenFault::Unopened));
    assert!(rt; count(&rt, "title_file_shared") == 0);
    assert!(rt; fs::write(&rt, "title_file_shared/a.plant", b"here".as_slice()).is_ok());
    let mut file = Drawer::new(&rt, FRESH)
        .share(rt.alloc(), "title_file_shared/a.plant")
        .expect(&rt, "the file is shared");
    assert!(rt; unshared(&rt, "title_file_shared/a.plant") == None);
    assert!(rt; refused(&rt, "title_file_shared/a.plant") == Some(OpenFault::InUse));
    assert!(rt; shows(&rt, "title_file_shared/a.plant", b"here"));
    let bytes = file.read(rt.alloc()).expect(&rt, "the file is read");
    assert!(rt; bytes.as_slice() == b"here".as_slice());
    assert!(rt; file.write_at(0, b"HE").is_err());
    assert!(rt; has(&rt, "title_file_shared/a.plant", b"here"));
    drop(file);
    let file = Drawer::new(&rt, FRESH)
        .open(rt.alloc(), "title_file_shared/a.plant")
        .expect(&rt, "the file is opened");
    assert!(rt; unshared(&rt, "title_file_shared/a.plant") == Some(OpenFault::InUse));
    drop(file);
    assert!(rt; count(&rt, "title_file_shared") == 1);
    assert!(rt; fs::remove_dir_all(&rt, "title_file_shared").is_ok());
}

#[test]
fn what_is_no_file_is_refused(rt: HostRuntime) {
    assert!(rt; empty(&rt, "title_file_none"));
    assert!(rt; fs::create_dir(&rt, "title_file_none/folder").is_ok());
    assert!(rt; symlink(&rt, "nowhere", "title_file_none/loose").is_ok());
    for path in [
        "",
        "title_file_none/folder",
        "title_file_none/missing/a.plant",
        "title_file_none/loose",
        "/dev/null",
    ] {
        assert!(rt; refused(&rt, path) == Some(OpenFault::Unopened), "{path}");
        assert!(rt; unshared(&rt, path) == Some(OpenFault::Unopened), "{path}");
        assert!(rt; !shows(&rt, path, b""), "{path}");
    }
    assert!(rt; count(&rt, "title_file_none") == 2);
    assert!(rt; fs::remove_dir_all(&rt, "title_file_none").is_ok());
}

#[test]
fn a_file_is_no_ones_without_permission(rt: HostRuntime) {
    assert!(rt; empty(&rt, "title_file_shut"));
    assert!(rt; fs::write(&rt, "title_file_shut/a.plant", FRESH).is_ok());
    let shut = fs::Permissions::from_mode(0o400);
    assert!(rt; fs::set_permissions(&rt, "title_file_shut/a.plant", shut).is_ok());
    // A superuser writes to it all the same.
    let may_write = fs::OpenOptions::new()
        .write(true)
        .open(&rt, "title_file_shut/a.plant")
        .is_ok();
    let fault = if may_write {
        None
    } else {
        Some(OpenFault::Unopened)
    };
    assert!(rt; refused(&rt, "title_file_shut/a.plant") == fault);
    assert!(rt; unshared(&rt, "title_file_shut/a.plant") == None);
    assert!(rt; shows(&rt, "title_file_shut/a.plant", FRESH));
    assert!(rt; fs::remove_dir_all(&rt, "title_file_shut").is_ok());
}

#[test]
fn a_link_leads_to_its_file(rt: HostRuntime) {
    assert!(rt; empty(&rt, "title_file_link"));
    assert!(rt; fs::write(&rt, "title_file_link/a.plant", b"here".as_slice()).is_ok());
    assert!(rt; symlink(&rt, "a.plant", "title_file_link/b.plant").is_ok());
    let mut file = Drawer::new(&rt, FRESH)
        .open(rt.alloc(), "title_file_link/b.plant")
        .expect(&rt, "the link is followed");
    assert!(rt; refused(&rt, "title_file_link/a.plant") == Some(OpenFault::InUse));
    file.write_at(0, b"HE").expect(&rt, "the file is written");
    assert!(rt; has(&rt, "title_file_link/a.plant", b"HEre"));
    drop(file);
    assert!(rt; fs::remove_dir_all(&rt, "title_file_link").is_ok());
}

#[test]
fn a_plant_is_written_as_it_was_read(rt: HostRuntime) {
    assert!(rt; empty(&rt, "title_file_again"));
    for bytes in [
        FRESH,
        b"fresh\n",
        b"fresh\n+",
        b"fresh\n?torn",
        b"fresh\n+\nrow\nend,1\n-",
        b"fresh\n+\nend,1\n",
        b"fresh\n+\nrow\nend,1\n+\nend,2\n-\nrow\nen",
    ] {
        assert!(rt; writes_again(&rt, "title_file_again/a.plant", bytes) == Some(true));
    }
    for bytes in [
        b"".as_slice(),
        b"fresh",
        b"other\n-",
        b"fresh\n+row\nend,1\n-",
        b"fresh\n+\nrow\nen",
        b"fresh\n+\nend,1\n+\nrow\n-",
    ] {
        assert!(rt; writes_again(&rt, "title_file_again/a.plant", bytes) == Some(false));
    }
    assert!(rt; fs::remove_dir_all(&rt, "title_file_again").is_ok());
}

// Whether a file is opened with its bytes as they are, and whether what will be cut off is kept then; none where it isn't opened, or
// has others.
fn keeps(rt: &HostRuntime, path: &str, bytes: &[u8]) -> Option<bool> {
    fs::write(rt, path, bytes).ok()?;
    let mut drawer = Drawer::new(rt, FRESH);
    let mut file = drawer.open(rt.alloc(), path).ok()?;
    let read = file.read(rt.alloc()).ok()?;
    if read.as_slice() != bytes || !has(rt, path, bytes) {
        return None;
    }
    Some(drawer.has_kept())
}

#[test]
fn what_will_be_cut_off_is_kept(rt: HostRuntime) {
    assert!(rt; empty(&rt, "title_file_kept"));
    for bytes in [
        b"fresh\n-".as_slice(),
        b"fresh\n",
        b"fresh",
        b"other\n-torn",
    ] {
        assert!(rt; keeps(&rt, "title_file_kept/a.plant", bytes) == Some(false));
    }
    assert!(rt; count(&rt, "title_file_kept") == 1);
    // The second is what an opening that was broken off has left.
    for (bytes, kept) in [
        (b"fresh\n-\ntorn".as_slice(), b"-\ntorn".as_slice()),
        (b"fresh\n-\ntorn", b"-\ntorn"),
        (b"fresh\n+\nend,1\n+", b"-\ntorn+"),
        (b"fresh\n+\nend,1\n--", b"-\ntorn+--"),
        (b"fresh\n+\nend,1\n-", b"-\ntorn+--"),
    ] {
        let is_torn = !bytes.ends_with(b"\n-");
        assert!(rt; keeps(&rt, "title_file_kept/a.plant", bytes) == Some(is_torn));
        assert!(rt; has(&rt, "title_file_kept/a.plant.cut", kept));
    }
    assert!(rt; count(&rt, "title_file_kept") == 2);
    assert!(rt; fs::remove_dir_all(&rt, "title_file_kept").is_ok());
}

#[test]
fn what_cant_be_kept_is_told(rt: HostRuntime) {
    assert!(rt; empty(&rt, "title_file_unkept"));
    assert!(rt; fs::create_dir(&rt, "title_file_unkept/a.plant.cut").is_ok());
    assert!(rt; keeps(&rt, "title_file_unkept/a.plant", b"fresh\n-torn") == Some(false));
    // A file that is to be kept beside itself.
    assert!(rt; symlink(&rt, "b.plant", "title_file_unkept/b.plant.cut").is_ok());
    assert!(rt; keeps(&rt, "title_file_unkept/b.plant", b"fresh\n-torn") == Some(false));
    assert!(rt; symlink(&rt, "/dev/full", "title_file_unkept/c.plant.cut").is_ok());
    assert!(rt; keeps(&rt, "title_file_unkept/c.plant", b"fresh\n-torn") == Some(false));
    assert!(rt; fs::remove_dir_all(&rt, "title_file_unkept").is_ok());
}

#[test]
fn what_is_kept_is_for_those_who_may_read_the_file(rt: HostRuntime) {
    assert!(rt; empty(&rt, "title_file_own"));
    assert!(rt; fs::write(&rt, "title_file_own/a.plant", FRESH).is_ok());
    let own = fs::Permissions::from_mode(0o600);
    assert!(rt; fs::set_permissions(&rt, "title_file_own/a.plant", own).is_ok());
    assert!(rt; keeps(&rt, "title_file_own/a.plant", b"fresh\n-torn") == Some(true));
    let kept = fs::metadata(&rt, "title_file_own/a.plant.cut").expect(&rt, "it is kept");
    assert!(rt; kept.mode() & 0o777 == 0o600);
    assert!(rt; fs::remove_dir_all(&rt, "title_file_own").is_ok());
}
