//! The clients of a scene, and the ends of their connections.

ghost use Rattle.std.specs.Prelude.{◌≡◌, IfOk, OnErr, None};

use crate::scene::Scene;
use connections::{Accept, AcceptFault, Close, Listen};
use std::alloc::Global;
use std::sync::Arc;
use std::thread::yield_now;
use wire::{Sink, SinkFault, Source, SourceFault};

/// An end of the connection of a client, which does each of its moves in its turn. A turn is over once what was sent is answered.
#[derive(Drop)]
pub(crate) struct Client {
    scene: Arc<Scene, Global>,
    digit: u8,
    /// The place from which its next move is looked for.
    place: usize,
    /// Whether the turn of the move before that has to be ended.
    is_on: bool,
}

impl Client {
    // An end of the connection of the client with this digit, who comes by the move before that place.
    fn new(scene: &Arc<Scene, Global>, digit: u8, place: usize) -> Result<Client, AcceptFault>
        ensures { IfOk result (λ client. client.digit ≡ digit) }
    {
        match Arc::try_clone(scene) {
            Ok(scene) => Ok(Client {
                scene,
                digit,
                place,
                is_on: false,
            }),
            Err(_) => Err(AcceptFault),
        }
    }

    // Ends its turn, where it has one.
    fn end_turn(&mut self) {
        if self.is_on {
            self.is_on = false;
            self.scene.go_on(self.place);
        }
    }
}

// A read gives what the next move sends, once its turn comes.
impl Source for Client {
    ghost left = { λ _. None };

    ghost failures = { λ _. 0 };

    fn read(&mut self, buffer: &mut [u8]) -> Result<usize, SourceFault> {
        self.end_turn();
        match self.scene.next(Some(self.digit), self.place) {
            Some(place) if self.scene.comes(place) => {
                self.place = place.saturating_add(1);
                self.is_on = true;
                let (_, text) = self.scene.at(place);
                let count = text.len().min(buffer.len());
                buffer[..count].copy_from_slice(&text[..count]);
                Ok(count)
            }
            _ => Ok(0),
        }
    }
}

impl Close for Client {
    fn close(self) {
        let mut client = self;
        client.end_turn();
        drop(client);
    }
}

impl Sink for Client {
    ghost contents = { λ _. None };

    ghost failures = { λ _. 0 };

    fn write(&mut self, bytes: &[u8]) -> Result<usize, SinkFault> {
        self.scene.tell(self.digit, bytes);
        Ok(bytes.len())
    }

    fn flush(&mut self) -> Result<(), SinkFault> {
        Ok(())
    }
}

/// Takes the clients of a scene, each in its turn.
#[derive(Drop)]
pub(crate) struct Comers {
    scene: Arc<Scene, Global>,
    /// The place from which the next one that comes is looked for.
    place: usize,
    /// Whether an accept fails once all have come; else none comes any more.
    fails: bool,
}

impl Comers {
    pub(crate) fn new(scene: Arc<Scene, Global>, fails: bool) -> Comers {
        Comers {
            scene,
            place: 0,
            fails,
        }
    }

    // Takes the client who comes by the move at this place, once its turn has come.
    fn take(&mut self, place: usize) -> Result<(Client, Client), AcceptFault>
        ensures taken { IfOk result (λ ends. ends.0.digit ≡ ends.1.digit) }
        ensures failed { OnErr result (self.new ≡ self.old) }
    {
        if !self.scene.comes(place) {
            return Err(AcceptFault);
        }
        let next = place.saturating_add(1);
        let (digit, _) = self.scene.at(place);
        let reader = Client::new(&self.scene, digit, next)?;
        let Ok(writer) = Client::new(&self.scene, digit, next) else {
            drop(reader);
            return Err(AcceptFault);
        };
        self.place = next;
        self.scene.go_on(next);
        Ok((reader, writer))
    }
}

impl Accept for Comers {
    type Reader = Client;

    type Writer = Client;

    // Both ends are those of one client.
    ghost takes = { λ _ reader writer _. reader.digit ≡ writer.digit };

    ghost fails = { λ old new. new ≡ old };

    fn accept(&mut self) -> Result<(Client, Client), AcceptFault> {
        match self.scene.next(None, self.place) {
            Some(place) => self.take(place),
            None => Err(AcceptFault),
        }
    }
}

impl Listen for Comers {
    fn accept_soon(&mut self) -> Result<Option<(Client, Client)>, AcceptFault> {
        if let Some(place) = self.scene.next(None, self.place) {
            return self.take(place).map(Some);
        }
        yield_now();
        if self.fails {
            Err(AcceptFault)
        } else {
            Ok(None)
        }
    }
}
