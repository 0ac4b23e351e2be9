//! What clients do in turns, and what they are answered.

use std::alloc::{AllocError, Global};
use std::sync::Mutex;
use std::sync::atomic::{AtomicUsize, Ordering};
use std::thread::yield_now;

/// How often a thread looks at most whether a turn has come.
const LOOKS: u32 = 20_000_000;

/// What is done in which order, whose turn it is, and what was answered. A move is a client's digit, a blank and what it sends: `+` where it
/// comes.
#[derive(Drop)]
pub(crate) struct Scene {
    moves: Vec<Vec<u8>>,
    turn: AtomicUsize,
    talk: Mutex<Vec<u8>>,
}

// Appends what a client was answered by one write.
fn add(talk: &mut Vec<u8>, client: u8, bytes: &[u8]) -> Result<(), AllocError> {
    talk.extend_from_slice(&[client, b'['])?;
    talk.extend_from_slice(bytes)?;
    talk.extend_from_slice(b"]")
}

impl Scene {
    /// The scene of the moves of the text, before the first.
    pub(crate) fn read(alloc: Global, text: &str) -> Result<Scene, AllocError> {
        let mut moves = Vec::new(alloc);
        for one in text.split(" ; ") {
            moves.push(one.as_bytes().to_vec(alloc)?)?;
        }
        Ok(Scene {
            moves,
            turn: AtomicUsize::new(0),
            talk: Mutex::new(Vec::new(alloc)),
        })
    }

    /// Where the next move is of this client, or the next by which one comes, from that place on.
    pub(crate) fn next(&self, client: Option<u8>, from: usize) -> Option<usize> {
        for (place, one) in self.moves.iter().enumerate() {
            let is_next = match client {
                Some(digit) => one.first() == Some(&digit),
                None => one.ends_with(b" +"),
            };
            if from <= place && is_next {
                return Some(place);
            }
        }
        None
    }

    /// The digit of the client whose move is at this place, and what is sent by it.
    pub(crate) fn at(&self, place: usize) -> (u8, &[u8]) {
        match self.moves.get(place) {
            Some(one) => match one.as_slice() {
                [client, _, text @ ..] => (*client, text),
                _ => (b'-', &[]),
            },
            None => (b'-', &[]),
        }
    }

    /// Waits for the turn of the move at this place. Whether it comes.
    pub(crate) fn comes(&self, place: usize) -> bool {
        for _ in 0..LOOKS {
            if self.turn.load(Ordering::SeqCst) == place {
                return true;
            }
            yield_now();
        }
        false
    }

    /// Ends the turn of the move before this place.
    pub(crate) fn go_on(&self, place: usize) {
        self.turn.store(place, Ordering::SeqCst);
    }

    /// Keeps what a client is answered by one write, unless memory is short.
    pub(crate) fn tell(&self, client: u8, bytes: &[u8]) {
        if let Some(mut talk) = self.talk.try_lock() {
            let _ = add(&mut talk, client, bytes);
        }
    }

    /// All that was answered.
    pub(crate) fn talk(&self, alloc: Global) -> Result<Vec<u8>, AllocError> {
        match self.talk.try_lock() {
            Some(talk) => talk.to_vec(alloc),
            None => Err(AllocError),
        }
    }
}
