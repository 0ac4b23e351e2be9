//! Runs of a server, one after the other, on the files that the one before left.

use crate::clients::Comers;
use crate::crossing::{client_crosses, disk_crosses, folder_crosses};
use crate::folder::MemoryFolder;
use crate::hall::{Hall, Told};
use crate::scene::Scene;
use connections::Connections;
use memory_disks::{Afterwards, FaultDisk};
use program::{Demand, Exit, ReadScript, Served, Unserved, serve, serve_parts};
use rows::{Output, first_word, number_of, parts};
use serving::{Plan, Recorder, SessionOn};
use std::alloc::{AllocError, Global};
use std::mem;
use std::sync::{Arc, Wait};
use std::thread::Threads;
use std::time::Clock;
use term::Names;

/// A run: what is asked for, which call of the disk fails, its doors and output, and how it ended.
#[derive(Drop)]
struct Run {
    demand: Demand,
    call: u64,
    hall: Hall,
    told: Told,
    end: Output,
}

// What is asked of a server by these words.
fn demand_of(word: &str, number: u64) -> Demand {
    let number = number.min(255) as u8;
    let plan = match (word, Connections::new(number)) {
        ("over" | "counted", Some(connections)) => Plan::Over(connections),
        ("stopped", _) => Plan::Stopped,
        _ => Plan::Idle,
    };
    Demand {
        plan,
        retries: number,
        counts: word == "counted",
    }
}

// Appends the status, or why nothing was served. Answers the session, or where there is none what the journal was to be on.
fn put_end<D, J: Recorder>(
    end: Result<Served<J>, Unserved<D, J>>,
    out: &mut Output,
) -> Result<Result<SessionOn<J, Global>, D>, AllocError> {
    let (session, exit) = match end {
        Ok(Served { session, exit, .. }) => (session, exit),
        Err(Unserved::Shut(exit, session)) => (session, exit),
        Err(Unserved::Unopened(error, disk)) => {
            out.put_shown(&error);
            return Ok(Err(disk));
        }
        Err(Unserved::Memory) => return Err(AllocError),
    };
    out.put("status");
    out.put_word(&exit.code());
    Ok(Ok(session))
}

impl Run {
    // The run of this scene by the words `PLAN NUMBER WHAT PLACE`.
    fn new(alloc: Global, words: &str, scene: Arc<Scene, Global>) -> Run {
        let (plan, words) = first_word(words);
        let (number, words) = first_word(words);
        let (what, place) = first_word(words);
        let demand = demand_of(plan, number_of(number));
        let mut run = Run {
            demand,
            call: 0,
            hall: Hall::new(Comers::new(scene, demand.plan != Plan::Idle)),
            told: Told::new(alloc),
            end: Output::new(alloc),
        };
        match what {
            "door" => run.hall.shut = Some(Exit::Limit),
            "output" => run.told.room = number_of(place) as usize,
            "disk" => run.call = number_of(place),
            _ => {}
        }
        run
    }

    // Appends what clients were answered, the output, how it ended, and what came of all connections together.
    fn put(&self, talk: &[u8], out: &mut Output) {
        out.put_bytes(talk);
        out.put("; ");
        out.put_file(&self.told.taken);
        out.put("; ");
        out.put(self.end.text());
        if let Some((totals, accept_failed)) = self.hall.over {
            out.put_answer(totals.rejected);
            out.put_answer(totals.limit);
            out.put_word(&totals.unjudged);
            out.put_answer(accept_failed);
        }
        out.put("; ");
    }
}

/// A row that is played: the script and root, and what the files of the journal hold.
#[derive(Drop)]
struct Playing<'a, T> {
    rt: &'a T,
    alloc: Global,
    /// How many records a part takes; 0 where the journal is one file.
    size: usize,
    script: &'a [u8],
    root: &'a [u8],
    files: Vec<Vec<u8>>,
}

impl<'a, T: Threads + Wait + Clock + Sync> Playing<'a, T> {
    // Serves on a disk, and keeps what its file holds then.
    fn serve_on(
        &mut self,
        disk: FaultDisk<Global>,
        script: ReadScript<'a, Global>,
        run: &mut Run,
    ) -> Result<(), AllocError> {
        disk_crosses();
        client_crosses();
        let end = serve(
            self.rt,
            self.alloc,
            disk,
            script,
            Names::Steps,
            run.demand,
            &mut run.hall,
            &mut run.told,
        );
        let disk = match put_end(end, &mut run.end)? {
            Ok(session) => session.into_disk(),
            Err(disk) => disk,
        };
        self.keep(disk.bytes())
    }

    // Serves in a folder, and keeps its files.
    fn serve_in(
        &mut self,
        folder: MemoryFolder,
        script: ReadScript<'a, Global>,
        run: &mut Run,
    ) -> Result<(), AllocError> {
        folder_crosses();
        client_crosses();
        let end = serve_parts(
            self.rt,
            self.alloc,
            folder,
            script,
            self.size.max(1),
            run.demand,
            &mut run.hall,
            &mut run.told,
        );
        let folder = match put_end(end, &mut run.end)? {
            Ok(session) => session.into_journal().into_folder(),
            Err(folder) => folder,
        };
        self.files = folder.into_files();
        Ok(())
    }

    // Keeps a file with these bytes after those that are there.
    fn keep(&mut self, bytes: &[u8]) -> Result<(), AllocError> {
        self.files.push(bytes.to_vec(self.alloc)?)?;
        Ok(())
    }

    // Serves on the files, in one of which a call fails. Those that are left then are the next ones.
    fn serve_on_files(
        &mut self,
        script: ReadScript<'a, Global>,
        run: &mut Run,
    ) -> Result<(), AllocError> {
        let mut files = mem::replace(&mut self.files, Vec::new(self.alloc));
        if self.size > 0 {
            return self.serve_in(MemoryFolder::new(files), script, run);
        }
        let bytes = files.pop().unwrap_or(Vec::new(self.alloc));
        drop(files);
        self.serve_on(
            FaultDisk::new(bytes, run.call, Afterwards::GoOn),
            script,
            run,
        )
    }

    // Reads the script, and serves. Where it is refused, the files stay as they are; a disk has an empty one at first.
    fn serve(&mut self, run: &mut Run) -> Result<(), AllocError> {
        match ReadScript::read(self.alloc, self.script, self.root) {
            Ok(script) => self.serve_on_files(script, run),
            Err(fault) => {
                run.end.put("script ");
                run.end.put_shown(&fault);
                if self.size == 0 && self.files.is_empty() {
                    self.keep(b"")?;
                }
                Ok(())
            }
        }
    }

    // Plays a run.
    fn run(&mut self, words: &str, moves: &str, out: &mut Output) -> Result<(), AllocError> {
        let scene = Arc::new(self.alloc, Scene::read(self.alloc, moves)?)?;
        let mut run = Run::new(self.alloc, words, Arc::try_clone(&scene)?);
        self.serve(&mut run)?;
        let talk = scene.talk(self.alloc)?;
        run.put(&talk, out);
        for file in &self.files {
            out.put_file(file);
        }
        Ok(())
    }

    // Plays a step.
    fn step(&mut self, step: &str, out: &mut Output) -> Result<(), AllocError> {
        let (word, text) = first_word(step);
        if word == "file" {
            return self.keep(text.as_bytes());
        }
        out.put(if out.text().is_empty() { "" } else { " | " });
        let (words, moves) = step.split_once(" ; ").unwrap_or((step, ""));
        self.run(words, moves, out)
    }
}

// Plays the steps of a row.
fn play_steps<T: Threads + Wait + Clock + Sync>(
    rt: &T,
    alloc: Global,
    row: &str,
    out: &mut Output,
) -> Result<(), AllocError> {
    let row = row.replace(alloc, '$', "\n")?;
    let (size, row) = first_word(&row);
    let (begin, steps) = parts(row);
    let (root, script) = first_word(begin);
    let mut play = Playing {
        rt,
        alloc,
        size: number_of(size) as usize,
        script: script.as_bytes(),
        root: root.as_bytes(),
        files: Vec::new(alloc),
    };
    for step in steps.split(" # ") {
        play.step(step, out)?;
    }
    Ok(())
}

/// Appends what comes of the row `SIZE ROOT SCRIPT # STEP # STEP ..`, in which `$` is a line feed; `out` is cut where there is no memory
/// for it.
pub fn play<T: Threads + Wait + Clock + Sync>(rt: &T, alloc: Global, row: &str, out: &mut Output) {
    if play_steps(rt, alloc, row, out).is_err() {
        out.is_cut = true;
    }
}
