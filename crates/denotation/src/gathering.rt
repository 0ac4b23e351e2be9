//! The bodies of what is reached from a root.
ghost use Rattle.std.specs.Prelude.{◌≡◌, ◌∷◌, ◌<◌, Some, List, IfOk, length, get_or, map, []};
ghost use Rattle.term.specs.Proc.{Proc, proc};
ghost use Rattle.values.specs.View.{Gives};
ghost use Rattle.denotation.specs.Bodies.{Key};
ghost use Rattle.denotation.specs.Denotes.{Gathered, body_under, root_key};
ghost use Rattle.denotation.specs.Rooms.{within_limits};
ghost use Rattle.denotation.specs.View.{body as body_of_draft, key, root as root_view};

use crate::call::Call;
use crate::draft::Draft;
use crate::maker::body_under;
use crate::numbering::{Met, numbered};
use crate::root::Root;
use event_phrases::GlobalScope;
use indexmap::IndexSet;
use std::alloc::{AllocError, Allocator};
use term::Term;
use tokens::ReadError;

/// The most nodes that all bodies have together.
const NODE_LIMIT: usize = 65_536;

/// Nothing but the root is met.
fn begun<A: Allocator + Copy>(alloc: A, root: &Root<'_, A>) -> Result<Met<A>, AllocError>
    ensures { IfOk result (λ met. map key met.keys ≡ root_key (root_view root.now) ∷ []) }
{
    let first = Call {
        name: Vec::from_slice(alloc, root.name())?,
        arguments: Vec::new(alloc),
    };
    let mut met = IndexSet::new(alloc);
    let _new = met.insert(first)?;
    Ok(met)
}

/// The body of the definition that was met with this number.
fn numbered_body<A: Allocator + Copy, G: GlobalScope<A>>(
    alloc: A,
    global: &G,
    root: &Root<'_, A>,
    number: usize,
    met: &Met<A>,
    room: &mut usize,
) -> Result<Draft<A>, ReadError>
    requires { number < length met.now.keys }
    ensures { (k : Key) → Gives (λ b. (body_of_draft b, room.new)) result (within_limits room.old (body_under (root_view root.now) (G.scope global.now) (get_or (map key met.now.keys) number k))) }
{
    body_under(alloc, global, root, &met[number], room)
}

/// The bodies of what is reached, where nothing but the root is met yet.
fn bodies<A: Allocator + Copy, G: GlobalScope<A>>(
    alloc: A,
    global: &G,
    root: &Root<'_, A>,
    met: &mut Met<A>,
) -> Result<Vec<Term<A>, A>, ReadError>
    ensures found { (first : Key) → map key met.old.keys ≡ first ∷ [] → IfOk result (λ v. Gathered (body_under (root_view root.now) (G.scope global.now)) first (map proc v.items)) }
    ensures only { (first : Key) → map key met.old.keys ≡ first ∷ [] → (ps : List Proc) → Gathered (body_under (root_view root.now) (G.scope global.now)) first ps → Gives (λ v. map proc v.items) result (Some ps) }
{
    let mut room = NODE_LIMIT;
    let mut terms = Vec::new(alloc);
    while terms.len() < met.len() {
        let draft = numbered_body(alloc, global, root, terms.len(), met, &mut room)?;
        let term = numbered(alloc, draft, met)?;
        terms.push(term)?;
    }
    Ok(terms)
}

/// The bodies of what is reached from the root, by their numbers: definitions are numbered as they are met, where the
/// root is read first and then each body in the order of these numbers. A definition with
/// parameters has a number for each list of their values.
///
/// `NoSuchProcess` where the script has no such process, `TooDeep` where a body is deeper than 200 and `TooLarge` where all
/// have more than 65,536 nodes, these two with the line of the definition's name, and the fault of the first phrase that
/// denotes nothing. Each body is made once, and then its definitions get their numbers; a reference costs one look-up by its hash.
pub fn gathered<A: Allocator + Copy, G: GlobalScope<A>>(
    alloc: A,
    global: &G,
    root: &Root<'_, A>,
) -> Result<Vec<Term<A>, A>, ReadError>
    // What is given are the bodies of what is reached.
    ensures found { IfOk result (λ v. Gathered (body_under (root_view root.now) (G.scope global.now)) (root_key (root_view root.now)) (map proc v.items)) }
    // These are given, unless memory runs out, and no others are bodies of what is reached.
    ensures only { (ps : List Proc) → Gathered (body_under (root_view root.now) (G.scope global.now)) (root_key (root_view root.now)) ps → Gives (λ v. map proc v.items) result (Some ps) }
{
    let mut met = begun(alloc, root)?;
    bodies(alloc, global, root, &mut met)
}
