//! Sessions on disks in memory, of which some fail.

use crate::asks::answer_all;
use crate::memory::{Memory, Way};
use disk::Disk;
use memory_disks::{Afterwards, FaultDisk};
use rows::{Output, Refusing, first_word, number_of, parts};
use session::{Session, SessionError};
use std::alloc::{Allocator, Global};

/// How a session begins, and what it is asked.
#[derive(Clone, Copy)]
pub(crate) struct Scene<'a> {
    /// The root and the script of a new session.
    new: Option<(&'a str, &'a str)>,
    /// What the disk holds before.
    pub file: &'a [u8],
    asks: &'a str,
}

impl<'a> Scene<'a> {
    /// What a row of this kind plays.
    pub(crate) fn read(row: &'a str) -> Option<Scene<'a>> {
        let (kind, text) = first_word(row);
        let (begin, asks) = parts(text);
        match kind {
            "session" | "written" => Some(Scene {
                new: Some(first_word(begin)),
                file: b"",
                asks,
            }),
            "journal" | "opened" => Some(Scene {
                new: None,
                file: begin.as_bytes(),
                asks,
            }),
            "over" => {
                let (new, asks) = parts(asks);
                Some(Scene {
                    new: Some(first_word(new)),
                    file: begin.as_bytes(),
                    asks,
                })
            }
            _ => None,
        }
    }

    /// A session of what the file holds, which is asked for its status.
    pub(crate) fn opening(file: &'a [u8]) -> Scene<'a> {
        Scene {
            new: None,
            file,
            asks: "S",
        }
    }

    /// The same with the file cut to a length.
    pub(crate) fn cut_to(&self, length: usize) -> Scene<'a> {
        Scene {
            new: self.new,
            file: &self.file[..length.min(self.file.len())],
            asks: self.asks,
        }
    }
}

/// The session with which the scene begins.
fn begun<D: Disk + Drop, A: Allocator + Copy + Drop>(
    alloc: A,
    disk: D,
    scene: &Scene,
) -> Result<Session<D, A>, (SessionError, D)> {
    match scene.new {
        Some((root, script)) => Session::create(alloc, disk, script.as_bytes(), root.as_bytes()),
        None => match Session::replay(alloc, disk, None) {
            Ok((session, _header)) => Ok(session),
            Err(failed) => Err(failed),
        },
    }
}

/// Appends the answers, and gives back the disk, which takes no memory.
pub(crate) fn played<D: Disk + Drop, A: Allocator + Copy + Drop>(
    alloc: A,
    disk: D,
    scene: &Scene,
    memory: Memory,
    out: &mut Output,
) -> D {
    match begun(alloc, disk, scene) {
        Ok(mut session) => {
            answer_all(&mut session, scene.asks, memory, out);
            memory.begin_quiet();
            let disk = session.into_disk();
            out.put(memory.end_quiet());
            disk
        }
        Err((error, disk)) => {
            out.put_shown(&error);
            disk
        }
    }
}

/// Appends the answers of a session on a disk of which a call fails (with 0 none does), both in this memory, and answers the file.
pub(crate) fn played_on(
    memory: Memory,
    call: u64,
    afterwards: Afterwards,
    scene: &Scene,
    out: &mut Output,
) -> Vec<u8> {
    match Vec::from_slice(memory.refusing, scene.file) {
        Ok(file) => {
            let disk = FaultDisk::new(file, call, afterwards);
            let disk = played(memory.refusing, disk, scene, memory, out);
            out.copy_of(disk.bytes())
        }
        Err(_) => {
            out.put("40 memory");
            out.copy_of(scene.file)
        }
    }
}

/// Appends the answers of a session on a disk of which a call fails (with 0 none does), and answers the file.
pub(crate) fn at_fault(
    alloc: Global,
    call: u64,
    afterwards: Afterwards,
    scene: &Scene,
    out: &mut Output,
) -> Vec<u8> {
    let refusing = Refusing::new(alloc, 0);
    let memory = Memory {
        refusing: &refusing,
        way: Way::Made,
    };
    played_on(memory, call, afterwards, scene, out)
}

/// Appends the answers of a session in memory, and answers the file.
pub(crate) fn in_memory(alloc: Global, scene: &Scene, out: &mut Output) -> Vec<u8> {
    at_fault(alloc, 0, Afterwards::GoOn, scene, out)
}

/// Appends the file, what a session of it answers to `S`, and the file that this leaves.
pub(crate) fn put_left(alloc: Global, file: &[u8], out: &mut Output) {
    out.put_file(file);
    out.put(" ");
    let left = in_memory(alloc, &Scene::opening(file), out);
    out.put(" ");
    out.put_file(&left);
}

/// Plays a scene, and then appends the file, where the row is of a kind that shows it.
fn play_scene(alloc: Global, kind: &str, scene: &Scene, out: &mut Output) {
    let file = in_memory(alloc, scene, out);
    if !matches!(kind, "session" | "opened") {
        out.put(" ");
        out.put_file(&file);
    }
}

/// The parts of `once ROW` or `always ROW`: what the calls after the one that fails do, and the row.
pub(crate) fn after_failing(text: &str) -> (Afterwards, &str) {
    let (word, row) = first_word(text);
    let afterwards = if word == "always" {
        Afterwards::Fail
    } else {
        Afterwards::GoOn
    };
    (afterwards, row)
}

/// Plays `K once ROW` or `K always ROW`.
fn play_fault(alloc: Global, text: &str, out: &mut Output) {
    let (call, text) = first_word(text);
    let (afterwards, row) = after_failing(text);
    match Scene::read(row) {
        Some(scene) => {
            let file = at_fault(alloc, number_of(call), afterwards, &scene, out);
            out.put(" ");
            put_left(alloc, &file, out);
            out.points = 1;
        }
        None => out.put("no such row"),
    }
}

/// Plays the calls of a session that take no memory where every request is refused. The disk has ample memory.
fn play_quiet(alloc: Global, text: &str, out: &mut Output) {
    let refusing = Refusing::new(alloc, 0);
    let memory = Memory {
        refusing: &refusing,
        way: Way::Quiet,
    };
    match Scene::read(text) {
        Some(scene) => {
            let disk = FaultDisk::new(out.copy_of(scene.file), 0, Afterwards::GoOn);
            let disk = played(&refusing, disk, &scene, memory, out);
            out.put(" ");
            out.put_file(disk.bytes());
        }
        None => out.put("no such row"),
    }
}

/// Plays a row of these kinds. Whether it is one is answered.
pub(crate) fn play(alloc: Global, row: &str, out: &mut Output) -> bool {
    let (kind, text) = first_word(row);
    match kind {
        "fault" => play_fault(alloc, text, out),
        "no_request" => play_quiet(alloc, text, out),
        _ => match Scene::read(row) {
            Some(scene) => play_scene(alloc, kind, &scene, out),
            None => return false,
        },
    }
    true
}
