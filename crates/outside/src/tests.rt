//! What no clause says: values from outside, and that calls succeed.

ghost use Rattle.std.specs.Prelude.{◌≡◌, ◌⊎◌};

use crate::std_world::read_whole;
use crate::{
    FAILURE, FileStore, Gate, GetFault, MemorySink, MemoryStore, MemoryWorld, NoGate, PutFault,
    Reply, Sink, StdSink, StdWorld, Store, SureSink, SureStore, World, write_all,
};
use sl_base::{Call, GETRANDOM, READ, Seq, WRITE};
use std::alloc::{AllocError, Global};
use std::fs::Permissions;
use std::io::{ErrorKind, Read, Write};
use std::os::unix::fs::PermissionsExt;
use std::rt::Files;
use std::test::Fail;
use std::{fs, io};

/// How many bytes a store gives.
fn got<S: Store>(alloc: Global, store: &mut S, name: &str, limit: u64) -> Result<usize, GetFault> {
    Ok(store.get(alloc, name, limit)?.len())
}

fn one_file(alloc: Global) -> Result<Vec<(String, Vec<u8>)>, AllocError> {
    let name = String::from_str(alloc, "a")?;
    let bytes = Vec::from_slice(alloc, b"one")?;
    Ok(vec![in alloc; (name, bytes)]?)
}

#[test]
fn stores_in_memory(rt: HostRuntime) -> Result<(), Fail> {
    let alloc = rt.alloc();
    let mut store = MemoryStore::new(one_file(alloc)?, vec![in alloc; 3, 5]?);
    assert!(rt; got(alloc, &mut store, "a", 3) == Ok(3));
    assert!(rt; got(alloc, &mut store, "a", 2) == Err(GetFault::TooLong));
    assert!(rt; got(alloc, &mut store, "a", 3) == Err(GetFault::Failed));
    assert!(rt; got(alloc, &mut store, "b", 3) == Err(GetFault::Absent));
    assert!(rt; store.put(alloc, "b", b"lost") == Err(PutFault::Failed));
    assert!(rt; store.put(alloc, "b", b"two").is_ok());
    assert!(rt; store.put(alloc, "a", b"three").is_ok());
    assert!(rt; store.file("a").unwrap_or(b"") == b"three".as_slice());
    assert!(rt; store.file("b").unwrap_or(b"") == b"two".as_slice());
    Ok(())
}

#[test]
fn a_sure_store(rt: HostRuntime) -> Result<(), Fail> {
    let alloc = rt.alloc();
    let mut store = SureStore::new(one_file(alloc)?);
    assert_eq!(rt; store.put(alloc, "b", b""), Ok(()));
    for (name, want) in [("a", Ok(3)), ("b", Ok(0)), ("c", Err(GetFault::Absent))] {
        assert_eq!(rt; got(alloc, &mut store, name, 9), want, "{name}");
    }
    assert_eq!(rt; store.file("a").unwrap_or(b""), b"one".as_slice());
    Ok(())
}

#[test]
fn sinks_in_memory(rt: HostRuntime) -> Result<(), Fail> {
    let alloc = rt.alloc();
    let mut sink = MemorySink::new(alloc, 7, vec![in alloc; 2]?)?;
    assert!(rt; write_all(&mut sink, b"abc").is_ok());
    assert!(rt; write_all(&mut sink, b"lost").is_err());
    assert!(rt; write_all(&mut sink, b"").is_ok());
    assert!(rt; write_all(&mut sink, b"defgh").is_err());
    assert_eq!(rt; sink.bytes(), b"abcdefg".as_slice());
    assert!(rt; write_all(&mut SureSink, b"dropped").is_ok());
    Ok(())
}

/// The answer to a call that gives four bytes and has room for three, and what stands in the room
/// afterwards.
fn answered<W: World>(world: &mut W, number: u32, descriptor: u32) -> (u32, [u8; 3])
    requires { (number ≡ 63) ⊎ (number ≡ 64) ⊎ (number ≡ 278) }
{
    let mut room = [9; 3];
    let call = Call {
        number,
        args: [descriptor, 0, 0, 0, 0, 0],
    };
    let result = world.answer(&call, b"four", &mut room);
    (result, room)
}

#[test]
fn worlds_in_memory(rt: HostRuntime) -> Result<(), Fail> {
    let alloc = rt.alloc();
    let mut replies = Vec::new(alloc);
    for (result, bytes) in [
        (5, [1, 2, 3, 4, 5].as_slice()),
        (5, &[1, 2]),
        (5, &[1, 2]),
        (0xffff_f001, &[1]),
        (0xffff_f000, &[1]),
    ] {
        replies.push(Reply {
            result,
            bytes: Seq::from_vec(Vec::from_slice(alloc, bytes)?),
        })?;
    }
    let mut world = MemoryWorld::new(replies);
    for (number, result, room) in [
        (READ, 3, [1, 2, 3]),
        (GETRANDOM, 2, [1, 2, 9]),
        (WRITE, 4, [9, 9, 9]),
        (READ, 0xffff_f001, [9, 9, 9]),
        (WRITE, 4, [9, 9, 9]),
        (READ, FAILURE, [9, 9, 9]),
    ] {
        assert!(rt; number == READ || number == WRITE || number == GETRANDOM);
        assert_eq!(rt; answered(&mut world, number, 0), (result, room));
    }
    NoGate.claimed(0, 0);
    Ok(())
}

#[test]
fn files_on_a_disk(rt: HostRuntime) -> Result<(), Fail> {
    let alloc = rt.alloc();
    let _ = fs::remove_dir_all(&rt, "outside_test");
    fs::create_dir(&rt, "outside_test")?;
    let mut store = FileStore::new(&rt);
    assert!(rt; got(alloc, &mut store, "outside_test/a", 5) == Err(GetFault::Absent));
    assert!(rt; store.put(alloc, "outside_test/a", b"one").is_ok());
    assert!(rt; store.put(alloc, "outside_test/a", b"three").is_ok());
    assert!(rt; got(alloc, &mut store, "outside_test/a", 4) == Err(GetFault::TooLong));
    assert!(rt; got(alloc, &mut store, "outside_test", 5) == Err(GetFault::Failed));
    assert!(rt; store.put(alloc, "outside_test", b"") == Err(PutFault::Failed));
    assert!(rt; store.put(alloc, "outside_test/none/a", b"") == Err(PutFault::Failed));
    assert!(rt; fs::read(&rt, "outside_test/a")?.as_slice() == b"three".as_slice());
    assert!(rt; fs::read_dir(&rt, "outside_test")?.count() == 1);
    fs::remove_dir_all(&rt, "outside_test")?;
    Ok(())
}

/// The permissions of a file, without its kind.
fn mode_of(files: &impl Files, name: &str) -> io::Result<u32> {
    Ok(fs::metadata(files, name)?.permissions().mode() % 0o1000)
}

#[test]
fn files_that_are_replaced(rt: HostRuntime) -> Result<(), Fail> {
    let alloc = rt.alloc();
    let _ = fs::remove_dir_all(&rt, "outside_modes");
    fs::create_dir(&rt, "outside_modes")?;
    let mut store = FileStore::new(&rt);
    // Files that a crash left behind.
    for number in 0..120 {
        let left = format!(in alloc; "outside_modes/.sledge-{number}.new")?;
        fs::write(&rt, left.as_str(), b"left")?;
    }
    assert!(rt; store.put(alloc, "outside_modes/a", b"one").is_ok());
    for (mode, put, bytes) in [
        (0o640, Ok(()), b"two".as_slice()),
        (0o755, Ok(()), b"two"),
        (0o444, Err(PutFault::Failed), b"one"),
    ] {
        fs::write(&rt, "outside_modes/a", b"one")?;
        fs::set_permissions(&rt, "outside_modes/a", Permissions::from_mode(mode))?;
        assert_eq!(rt;
            store.put(alloc, "outside_modes/a", b"two"),
            put,
            "{mode:o}"
        );
        assert_eq!(rt; mode_of(&rt, "outside_modes/a")?, mode);
        assert_eq!(rt; fs::read(&rt, "outside_modes/a")?.as_slice(), bytes);
    }
    assert!(rt; fs::read_dir(&rt, "outside_modes")?.count() == 121);
    fs::remove_dir_all(&rt, "outside_modes")?;
    Ok(())
}

#[test]
fn the_outside_of_a_process(rt: HostRuntime) -> Result<(), Fail> {
    let alloc = rt.alloc();
    let mut output = Vec::new(alloc);
    let mut error_room = [0; 5];
    let mut errors = error_room.as_mut_slice();
    let mut world = StdWorld::new(alloc, &rt, b"12345".as_slice(), &mut output, &mut errors)?;
    for (number, descriptor, result, room) in [
        (READ, 0, 3, [49, 50, 51]),
        (READ, 0, 2, [52, 53, 9]),
        (READ, 0, 0, [9, 9, 9]),
        (READ, 1, 0xffff_fff7, [9, 9, 9]),
        (WRITE, 0, 0xffff_fff7, [9, 9, 9]),
        (WRITE, 1, 4, [9, 9, 9]),
        (WRITE, 2, 4, [9, 9, 9]),
        (WRITE, 2, FAILURE, [9, 9, 9]),
    ] {
        assert!(rt; number == READ || number == WRITE || number == GETRANDOM);
        assert_eq!(rt; answered(&mut world, number, descriptor), (result, room));
    }
    let mut rooms = [[0; 64]; 2];
    for room in &mut rooms {
        let call = Call {
            number: GETRANDOM,
            args: [0; 6],
        };
        assert_eq!(rt; world.answer(&call, b"", room), 64);
    }
    assert!(rt; rooms[0] != rooms[1]);
    drop(world);
    assert!(rt; output.as_slice() == b"four".as_slice());
    Ok(())
}

/// A reader and writer that a signal interrupts at each other call, and that moves one byte at each
/// call else.
#[derive(Drop)]
struct Interrupted {
    calls: u64,
}

impl Interrupted {
    fn next(&mut self) -> io::Result<()> {
        self.calls = self.calls.saturating_add(1);
        if self.calls % 2 == 1 {
            return Err(io::Error::from(ErrorKind::Interrupted));
        }
        Ok(())
    }
}

impl Read for Interrupted {
    fn read(&mut self, buf: &mut [u8]) -> io::Result<usize> {
        self.next()?;
        let Some(first) = buf.first_mut() else {
            return Ok(0);
        };
        *first = 7;
        Ok(1)
    }
}

impl Write for Interrupted {
    fn write(&mut self, buf: &[u8]) -> io::Result<usize> {
        self.next()?;
        Ok(buf.len().min(1))
    }

    fn flush(&mut self) -> io::Result<()> {
        Ok(())
    }
}

#[test]
fn interruptions(rt: HostRuntime) -> Result<(), Fail> {
    let new = || Interrupted { calls: 0 };
    let mut world = StdWorld::new(rt.alloc(), &rt, new(), new(), new())?;
    for (number, descriptor, result, room) in [
        (READ, 0, 1, [7, 9, 9]),
        (WRITE, 1, 4, [9, 9, 9]),
        (WRITE, 2, 4, [9, 9, 9]),
    ] {
        assert!(rt; number == READ || number == WRITE);
        assert_eq!(rt; answered(&mut world, number, descriptor), (result, room));
    }
    let mut room = [9; 3];
    assert_eq!(rt; read_whole(&mut new(), &mut [0; 4], &mut room), Some(3));
    assert_eq!(rt; room, [7, 7, 7]);
    assert_eq!(rt;
        read_whole(&mut b"ab".as_slice(), &mut [0; 4], &mut room),
        None
    );
    assert!(rt; write_all(&mut StdSink::new(new()), b"four").is_ok());
    Ok(())
}

#[test]
fn standard_output(rt: HostRuntime) {
    assert!(rt; write_all(&mut StdSink::new(rt.stdout()), b"a line\n").is_ok());
    assert!(rt; write_all(&mut StdSink::new([0; 3].as_mut_slice()), b"four").is_err());
}
