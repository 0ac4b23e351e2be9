//! What a script denotes: read once, and with names kept in either way.

ghost use Rattle.std.specs.Prelude.{◌≡◌, true, IfOk, IfSome, MatchResult};
ghost use Rattle.term.specs.Specs.{Specified};
ghost use Rattle.term.specs.declared.names.Names.TheVariants.{Steps};
ghost use Rattle.tokens.specs.declared.error.ScriptErrorKind.{ScriptErrorKind};
ghost use Rattle.script.specs.Reading.{IsRead};
ghost use Rattle.session.specs.Scripts.{IsReadAs};

use script::{one_reading, read};
use std::alloc::Allocator;
use std::marker::Model;
use term::{Names, Spec};
use tokens::ScriptError;

/// A script that was read for a root, with the specification that it denotes.
#[derive(Drop)]
pub struct ReadScript<'a, A: Allocator> {
    text: &'a [u8],
    root: &'a [u8],
    spec: Spec<A>,
}

impl<'a, A: Allocator> Model for ReadScript<'a, A> {
    ghost use Rattle.session.specs.Scripts.{Scripted, scripted_code};

    ghost Value = { Scripted };

    ghost coded = { scripted_code };

    ghost use Rattle.std.specs.Prelude.{◌≡◌};
    ghost use Rattle.term.specs.declared.names.Names.TheVariants.{Steps};
    ghost use Rattle.script.specs.Reading.{IsRead};

    ghost view = { λ s. record { text = s.text.now; root = s.root.now; spec = s.spec } };

    ghost invariant = { λ s. IsRead s.text.now s.root.now s.spec × (s.spec.names ≡ Steps) };
}

impl<'a, A: Allocator + Copy> ReadScript<'a, A> {
    /// Reads the script for the root, or answers the first fault, as `script::read` does.
    pub fn read(alloc: A, text: &'a [u8], root: &'a [u8]) -> Result<ReadScript<'a, A>, ScriptError>
        ensures text { IfOk result (λ s. s.text ≡ text.now) }
        ensures root { IfOk result (λ s. s.root ≡ root.now) }
        ensures found { IfOk result (λ s. IsRead text.now root.now s.spec) }
        ensures names { IfOk result (λ s. s.spec.names ≡ Steps) }
        ensures only { (spec : Specified) → IsRead text.now root.now spec → spec.names ≡ Steps → MatchResult result (λ s. s.spec ≡ spec) (λ e. e.kind ≡ ScriptErrorKind.Memory) }
    {
        match read(alloc, text, root) {
            Ok(spec) => Ok(ReadScript { text, root, spec }),
            Err(error) => Err(error),
        }
    }
}

impl<'a, A: Allocator> ReadScript<'a, A> {
    /// The script's text. Takes no memory.
    pub fn text(&self) -> &'a [u8]
        ensures { result.now ≡ self.now.text }
    {
        self.text
    }

    /// The root that it was read for. Takes no memory.
    pub fn root(&self) -> &'a [u8]
        ensures { result.now ≡ self.now.root }
    {
        self.root
    }

    /// Whether it is this script, and was read for this root.
    fn is_of(&self, script: &[u8], root: &[u8]) -> bool
        ensures { result ≡ true → (self.now.text ≡ script.now) × (self.now.root ≡ root.now) }
    {
        self.text == script && self.root == root
    }

    /// The specification that it denotes, with names kept so. Takes no memory.
    pub fn into_spec(self, names: Names) -> Spec<A>
        ensures found { IsReadAs names self.entry.text self.entry.root result }
        ensures alone { (spec : Specified) → IsReadAs names self.entry.text self.entry.root spec → result ≡ spec }
    {
        one_reading();
        self.spec.with_names(names)
    }
}

/// The specification that the script denotes for the root, with names kept so, or the first fault, as `script::read` answers it.
pub fn read_as<A: Allocator + Copy>(
    alloc: A,
    script: &[u8],
    root: &[u8],
    names: Names,
) -> Result<Spec<A>, ScriptError>
    ensures found { IfOk result (λ spec. IsReadAs names script.now root.now spec) }
    ensures only { (spec : Specified) → IsReadAs names script.now root.now spec → MatchResult result (λ s. s ≡ spec) (λ e. e.kind ≡ ScriptErrorKind.Memory) }
{
    match read(alloc, script, root) {
        Ok(spec) => Ok(spec.with_names(names)),
        Err(error) => Err(error),
    }
}

/// The specification that this script denotes for this root, with names kept so, where it is the script that is known.
fn known_of<A: Allocator>(
    known: ReadScript<'_, A>,
    script: &[u8],
    root: &[u8],
    names: Names,
) -> Option<Spec<A>>
    ensures found { IfSome result (λ spec. IsReadAs names script.now root.now spec) }
    ensures alone { IfSome result (λ s. (spec : Specified) → IsReadAs names script.now root.now spec → s ≡ spec) }
{
    if known.is_of(script, root) {
        Some(known.into_spec(names))
    } else {
        None
    }
}

/// `read_as`, which reads the script only where it isn't the one that is known.
pub fn read_unless_known<A: Allocator + Copy>(
    alloc: A,
    script: &[u8],
    root: &[u8],
    names: Names,
    known: Option<ReadScript<'_, A>>,
) -> Result<Spec<A>, ScriptError>
    ensures found { IfOk result (λ spec. IsReadAs names script.now root.now spec) }
    ensures only { (spec : Specified) → IsReadAs names script.now root.now spec → MatchResult result (λ s. s ≡ spec) (λ e. e.kind ≡ ScriptErrorKind.Memory) }
{
    if let Some(known) = known {
        if let Some(spec) = known_of(known, script, root, names) {
            return Ok(spec);
        }
    }
    read_as(alloc, script, root, names)
}
