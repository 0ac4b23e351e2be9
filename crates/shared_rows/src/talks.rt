//! Conversations with the seats of a shared session, one after the other.

ghost use Rattle.std.specs.Prelude.{[], ◌≡◌, ◌<◌, ◌≤◌, IfSome};
ghost use Rattle.alphabet.specs.Channels.{event_count};

use crate::ends::{put_kept, put_looks, put_session, put_talk, put_unopened};
use crate::memory::Memory;
use alphabet::{Alphabet, copy_of};
use disk::Disk;
use journal::Journal;
use rows::{Output, first_word, number_of, parts};
use seats::SeatJudge;
use shared::{Opened, Session, Share, Shared, Sharing};
use std::alloc::{Allocator, Global};
use std::marker::Brand;
use std::sync::Wait;
use std::sync::ledger::Blank;
use wire::{Fault, Plain, Tally};

/// The most places that a shared session has.
const PLACES: u64 = 64;

/// How many places a session of the script has, and the inputs of its seats.
#[derive(Clone, Copy)]
pub(crate) struct Talks<'a> {
    places: u64,
    root: &'a str,
    script: &'a str,
    inputs: &'a str,
}

impl<'a> Talks<'a> {
    /// What the row `PLACES ROOT SCRIPT # INPUTS` asks for.
    pub(crate) fn read(row: &'a str) -> Talks<'a> {
        let (begin, inputs) = parts(row);
        let (places, begin) = first_word(begin);
        let (root, script) = first_word(begin);
        Talks {
            places: number_of(places),
            root,
            script,
            inputs,
        }
    }
}

/// Appends what comes of a conversation.
fn talk<D: Disk, A: Allocator + Copy + Drop, N: Sharing<Journal<D>>, T: Wait>(
    alloc: A,
    judge: &mut SeatJudge<'_, Journal<D>, A, N, T>,
    alphabet: &Alphabet<A>,
    input: &str,
    out: &mut Output,
)
    requires { event_count N.spec.alphabet ≡ event_count alphabet.now }
{
    let mut reader = Plain::new(input.as_bytes());
    let mut writer = Plain::new(out.copy_of(b""));
    let mut tally = Tally::new();
    let end = judge.serve(alloc, &mut reader, &mut writer, alphabet, &mut tally);
    put_talk(end, tally, &writer.into_inner(), out);
}

/// Appends what comes of a conversation at the seat of this share.
fn talk_at<D: Disk, A: Allocator + Copy + Drop, N: Sharing<Journal<D>>, T: Wait>(
    rt: &T,
    alloc: A,
    shared: &Shared<Journal<D>, A, N>,
    share: Share<N, A>,
    alphabet: &Alphabet<A>,
    input: &str,
    out: &mut Output,
) -> Share<N, A>
    requires { event_count N.spec.alphabet ≡ event_count alphabet.now }
{
    let mut judge = SeatJudge::new(rt, shared.again(share));
    talk(alloc, &mut judge, alphabet, input, out);
    judge.end()
}

/// Appends what comes of a conversation at the seat with this place.
fn talk_with<D: Disk, A: Allocator + Copy + Drop, N: Sharing<Journal<D>>, T: Wait>(
    rt: &T,
    alloc: A,
    shared: &Shared<Journal<D>, A, N>,
    shares: &mut Vec<Share<N, A>, A>,
    place: usize,
    alphabet: &Alphabet<A>,
    input: &str,
    out: &mut Output,
)
    requires { event_count N.spec.alphabet ≡ event_count alphabet.now }
{
    if place >= shares.len() {
        return out.put("no such seat; ");
    }
    let share = shares.remove(place);
    let share = talk_at(rt, alloc, shared, share, alphabet, input, out);
    if shares.insert(place, share).is_err() {
        out.is_cut = true;
    }
}

/// Appends what comes of the conversations, one after the other.
fn talk_all<D: Disk, A: Allocator + Copy + Drop, N: Sharing<Journal<D>>, T: Wait>(
    rt: &T,
    alloc: A,
    shared: &Shared<Journal<D>, A, N>,
    shares: &mut Vec<Share<N, A>, A>,
    alphabet: &Alphabet<A>,
    inputs: &str,
    memory: Memory,
    out: &mut Output,
)
    requires { event_count N.spec.alphabet ≡ event_count alphabet.now }
{
    for input in inputs.split(" # ") {
        let (seat, input) = first_word(input);
        let place = number_of(seat).saturating_sub(1) as usize;
        talk_with(rt, alloc, shared, shares, place, alphabet, input, out);
        memory.after_talk();
    }
}

/// Takes the places of the session, for whose shares there is room. Answers why one isn't given.
fn take_places<D: Disk, A: Allocator + Copy, N: Sharing<Journal<D>>, T: Wait>(
    rt: &T,
    alloc: A,
    shared: &Shared<Journal<D>, A, N>,
    shares: &mut Vec<Share<N, A>, A>,
    places: u64,
) -> Option<Fault> {
    for _ in 0..places {
        match shared.seat(rt, alloc) {
            Ok(seat) => {
                let _ = shares.push(seat.end());
            }
            Err(fault) => return Some(fault.plain()),
        }
    }
    None
}

/// Appends why there is no further seat.
fn put_refusal<D: Disk, A: Allocator + Copy, N: Sharing<Journal<D>>, T: Wait>(
    rt: &T,
    alloc: A,
    shared: &Shared<Journal<D>, A, N>,
    out: &mut Output,
) {
    match shared.seat(rt, alloc) {
        Ok(seat) => {
            let _ = seat.end();
            out.put("a seat");
        }
        Err(fault) => out.put_shown(&fault.plain()),
    }
    out.put("; ");
}

/// Appends what each seat answers without a report.
fn look_at_all<D: Disk, A: Allocator + Copy, N: Sharing<Journal<D>>, T: Wait>(
    rt: &T,
    shared: &Shared<Journal<D>, A, N>,
    shares: &mut Vec<Share<N, A>, A>,
    alphabet: &Alphabet<A>,
    out: &mut Output,
) {
    for _ in 0..shares.len() {
        if let Some(share) = shares.pop() {
            let mut seat = shared.again(share);
            put_looks(alphabet, seat.status(), &seat.next(rt), out);
            let _ = shares.insert(0, seat.end());
        }
    }
}

/// Appends what comes of the conversations, and why there is no further seat then.
fn talk_in_turn<D: Disk, A: Allocator + Copy + Drop, N: Sharing<Journal<D>>, T: Wait>(
    rt: &T,
    alloc: A,
    shared: &Shared<Journal<D>, A, N>,
    shares: &mut Vec<Share<N, A>, A>,
    alphabet: &Alphabet<A>,
    talks: &Talks,
    memory: Memory,
    out: &mut Output,
)
    requires { event_count N.spec.alphabet ≡ event_count alphabet.now }
{
    if let Some(fault) = take_places(rt, alloc, shared, shares, talks.places) {
        out.put_shown(&fault);
        return out.put("; ");
    }
    talk_all(
        rt,
        alloc,
        shared,
        shares,
        alphabet,
        talks.inputs,
        memory,
        out,
    );
    if memory.after_talks() {
        look_at_all(rt, shared, shares, alphabet, out);
    }
    put_refusal(rt, alloc, shared, out);
}

/// Appends what comes of the conversations at the seats of this session, what it has then, and what a session of its file has. The caller
/// picks the names.
fn share<D: Disk + Drop, A: Allocator + Copy + Drop, N: Sharing<Journal<D>>, T: Wait>(
    rt: &T,
    alloc: A,
    session: Session<D, A>,
    opened: Opened,
    blank: Blank,
    alphabet: &Alphabet<A>,
    talks: &Talks,
    memory: Memory,
    out: &mut Output,
)
    requires story { (session.spec ≡ N.spec) × (session.history ≡ N.opening) × (session.offered ≡ []) }
    requires before { IfSome N.before (λ before. before ≡ session) }
    requires book { opened.seen.book ≡ N.book }
    requires ledger { (blank.name ≡ N.name) × (blank.parts ≡ N.parts) × (N.all ≡ N.parts) × (N.all ≡ 65) }
    requires events { event_count N.spec.alphabet ≡ event_count alphabet.now }
    requires places { (0 < talks.now.places) × (talks.now.places ≤ 64) }
{
    let mut shares = Vec::new(alloc);
    match Shared::<Journal<D>, A, N>::new(rt, alloc, session, opened, blank, talks.places) {
        Ok(shared) => {
            if shares.reserve(talks.places as usize).is_ok() {
                talk_in_turn(
                    rt,
                    alloc,
                    &shared,
                    &mut shares,
                    alphabet,
                    talks,
                    memory,
                    out,
                );
            } else {
                out.put("40 memory; ");
            }
            let (session, count) = shared.finish(rt, shares);
            put_session(count, &session, out);
            put_kept(memory.alloc, session.into_disk(), out);
        }
        Err(_) => {
            drop(shares);
            out.put("40 memory");
        }
    }
}

/// Appends what comes of the conversations at the seats of this session, and what it has then.
fn over<D: Disk + Drop, A: Allocator + Copy + Drop, T: Wait>(
    rt: &T,
    alloc: A,
    session: Session<D, A>,
    talks: &Talks,
    memory: Memory,
    out: &mut Output,
)
    requires offered { session.offered ≡ [] }
    requires places { (0 < talks.now.places) × (talks.now.places ≤ 64) }
{
    match copy_of(alloc, session.spec().alphabet()) {
        Ok(alphabet) => share::<_, _, Brand, _>(
            rt,
            alloc,
            session,
            Opened::new(),
            Blank::new(65),
            &alphabet,
            talks,
            memory,
            out,
        ),
        Err(_) => {
            drop(session);
            out.put("40 memory");
        }
    }
}

/// Appends what comes of conversations with a new session on this disk, in this memory.
pub(crate) fn on_disk<D: Disk + Drop, A: Allocator + Copy + Drop, T: Wait>(
    rt: &T,
    alloc: A,
    disk: D,
    talks: &Talks,
    memory: Memory,
    out: &mut Output,
) {
    if talks.places == 0 || talks.places > PLACES {
        return out.put("no such number of places");
    }
    match Session::create(alloc, disk, talks.script.as_bytes(), talks.root.as_bytes()) {
        Ok(session) => over(rt, alloc, session, talks, memory, out),
        Err((error, _)) => put_unopened(error, out),
    }
}
