//! A service, whose seats come and go.

ghost use Rattle.std.specs.Prelude.{[], ◌≡◌, ◌+◌, ◌<◌, ◌≤◌, IfSome};
ghost use Rattle.alphabet.specs.Channels.{event_count};

use crate::ends::{put_kept, put_session, put_talk, put_unopened};
use alphabet::{Alphabet, copy_of};
use disk::Disk;
use journal::Journal;
use memory_disks::{Afterwards, FaultDisk};
use rows::{Output, first_word, number_of, parts};
use seats::ServiceJudge;
use shared::{Opened, Places, Session, Share, Shared, Sharing};
use std::alloc::Global;
use std::marker::Brand;
use std::sync::Wait;
use std::sync::ledger::Blank;
use wire::{Plain, Tally};

/// A service of so many places, and what its seats do.
#[derive(Clone, Copy)]
struct Visits<'a> {
    places: u64,
    root: &'a str,
    script: &'a str,
    steps: &'a str,
}

impl<'a> Visits<'a> {
    /// What the row `PLACES ROOT SCRIPT # STEPS` asks for.
    fn read(row: &'a str) -> Visits<'a> {
        let (begin, steps) = parts(row);
        let (places, begin) = first_word(begin);
        let (root, script) = first_word(begin);
        Visits {
            places: number_of(places),
            root,
            script,
            steps,
        }
    }
}

/// A seat comes. It is the last one of the list then.
fn come<D: Disk, N: Sharing<Journal<D>>, T: Wait>(
    rt: &T,
    shared: &Shared<Journal<D>, Global, N>,
    places: &mut Places<N>,
    shares: &mut Vec<Share<N, Global>, Global>,
    out: &mut Output,
) {
    match shared.take_place(rt, places) {
        Ok(seat) => {
            if shares.push(seat.end()).is_err() {
                out.is_cut = true;
            }
        }
        Err(fault) => {
            out.put_shown(&fault.plain());
            out.put("; ");
        }
    }
}

/// Appends what comes of a conversation at the seat of this share.
fn talk_at<D: Disk, N: Sharing<Journal<D>>, T: Wait>(
    rt: &T,
    alloc: Global,
    shared: &Shared<Journal<D>, Global, N>,
    share: Share<N, Global>,
    alphabet: &Alphabet<Global>,
    input: &str,
    out: &mut Output,
) -> Share<N, Global>
    requires { event_count N.spec.alphabet ≡ event_count alphabet.now }
{
    let mut judge = ServiceJudge::new(rt, shared.again(share));
    let mut reader = Plain::new(input.as_bytes());
    let mut writer = Plain::new(out.copy_of(b""));
    let mut tally = Tally::new();
    let end = judge.serve(alloc, &mut reader, &mut writer, alphabet, &mut tally);
    put_talk(end, tally, &writer.into_inner(), out);
    judge.end()
}

/// A seat talks, or leaves.
fn act<D: Disk, N: Sharing<Journal<D>>, T: Wait>(
    rt: &T,
    alloc: Global,
    shared: &Shared<Journal<D>, Global, N>,
    places: &mut Places<N>,
    shares: &mut Vec<Share<N, Global>, Global>,
    alphabet: &Alphabet<Global>,
    step: &str,
    out: &mut Output,
)
    requires events { event_count N.spec.alphabet ≡ event_count alphabet.now }
    requires ledger { N.all ≡ N.parts }
{
    let (word, input) = first_word(step);
    let leaves = word == "leave";
    let seat = number_of(if leaves { input } else { word });
    let place = seat.saturating_sub(1) as usize;
    if place >= shares.len() {
        return out.put("no such seat; ");
    }
    let share = shares.remove(place);
    if leaves {
        shared.leave(rt, share, places);
        return;
    }
    let share = talk_at(rt, alloc, shared, share, alphabet, input, out);
    if shares.insert(place, share).is_err() {
        out.is_cut = true;
    }
}

/// Plays the steps, one after the other.
fn play_all<D: Disk, N: Sharing<Journal<D>>, T: Wait>(
    rt: &T,
    alloc: Global,
    shared: &Shared<Journal<D>, Global, N>,
    places: &mut Places<N>,
    shares: &mut Vec<Share<N, Global>, Global>,
    alphabet: &Alphabet<Global>,
    steps: &str,
    out: &mut Output,
)
    requires events { event_count N.spec.alphabet ≡ event_count alphabet.now }
    requires ledger { N.all ≡ N.parts }
{
    for step in steps.split(" # ") {
        if step == "come" {
            come(rt, shared, places, shares, out);
        } else {
            act(rt, alloc, shared, places, shares, alphabet, step, out);
        }
    }
}

/// Appends what comes of the steps in a service over this session, what it has then, and what a session of its file has. The caller
/// picks the names.
fn serve<D: Disk + Drop, N: Sharing<Journal<D>>, T: Wait>(
    rt: &T,
    alloc: Global,
    session: Session<D, Global>,
    opened: Opened,
    blank: Blank,
    alphabet: &Alphabet<Global>,
    visits: &Visits,
    out: &mut Output,
)
    requires story { (session.spec ≡ N.spec) × (session.history ≡ N.opening) × (session.offered ≡ []) }
    requires before { IfSome N.before (λ before. before ≡ session) }
    requires book { opened.seen.book ≡ N.book }
    requires ledger { (blank.name ≡ N.name) × (blank.parts ≡ N.parts) × (N.all ≡ N.parts) × (N.all ≡ visits.now.places + 2) }
    requires events { event_count N.spec.alphabet ≡ event_count alphabet.now }
    requires places { (0 < visits.now.places) × (visits.now.places ≤ 64) }
{
    let Ok((shared, places)) = Shared::<Journal<D>, Global, N>::service(
        rt,
        alloc,
        session,
        opened,
        blank,
        visits.places,
    ) else {
        return out.put("40 memory");
    };
    let mut places = places;
    let mut shares = Vec::new(alloc);
    play_all(
        rt,
        alloc,
        &shared,
        &mut places,
        &mut shares,
        alphabet,
        visits.steps,
        out,
    );
    out.put_shown(&places.free());
    out.put(" free, ");
    out.put_shown(&places.receipts());
    out.put(" to those that left; ");
    let (session, count) = shared.finish_service(rt, shares, places);
    put_session(count, &session, out);
    put_kept(alloc, session.into_disk(), out);
}

/// Appends what comes of the steps in a service over this session, and what it has then.
fn over<D: Disk + Drop, T: Wait>(
    rt: &T,
    alloc: Global,
    session: Session<D, Global>,
    visits: &Visits,
    out: &mut Output,
)
    requires offered { session.offered ≡ [] }
    requires places { (0 < visits.now.places) × (visits.now.places ≤ 64) }
{
    match copy_of(alloc, session.spec().alphabet()) {
        Ok(alphabet) => serve::<_, Brand, _>(
            rt,
            alloc,
            session,
            Opened::new(),
            Blank::new(visits.places + 2),
            &alphabet,
            visits,
            out,
        ),
        Err(_) => {
            drop(session);
            out.put("40 memory");
        }
    }
}

/// Appends what comes of a service with a new session on this disk.
fn on_disk<D: Disk + Drop, T: Wait>(
    rt: &T,
    alloc: Global,
    disk: D,
    visits: &Visits,
    out: &mut Output,
) {
    if visits.places == 0 || visits.places > 64 {
        return out.put("no such number of places");
    }
    let (script, root) = (visits.script.as_bytes(), visits.root.as_bytes());
    match Session::create(alloc, disk, script, root) {
        Ok(session) => over(rt, alloc, session, visits, out),
        Err((error, _)) => put_unopened(error, out),
    }
}

/// Plays a row of these kinds. Whether it is one is answered.
pub(crate) fn play<T: Wait>(rt: &T, alloc: Global, row: &str, out: &mut Output) -> bool {
    let (kind, text) = first_word(row);
    let (call, text) = match kind {
        "service" => (0, text),
        "service_fault" => {
            let (call, text) = first_word(text);
            (number_of(call), text)
        }
        _ => return false,
    };
    let disk = FaultDisk::new(Vec::new(alloc), call, Afterwards::GoOn);
    on_disk(rt, alloc, disk, &Visits::read(text), out);
    true
}
