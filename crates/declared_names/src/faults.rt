//! Which fault is reported of the names that a script declares. No contract says it.

use crate::entering::name_list;
use crate::entries::Hashing;
use indexmap::IndexSet;
use std::alloc::Allocator;
use syntax::{Form, Tree};
use tokens::{ReadError, ScriptErrorKind, fault};

type Names<'a, A> = IndexSet<&'a [u8], Hashing, A>;

/// Puts the name among the names; whether it wasn't there.
fn put_name<'a, A: Allocator + Copy>(
    names: &mut Names<'a, A>,
    name: &'a Tree<A>,
) -> Result<bool, ReadError> {
    match name {
        Tree::Name { text, .. } => {
            let new = names.insert(text.as_slice())?;
            Ok(new)
        }
        _ => Ok(true),
    }
}

/// Puts the name among the names; `Redeclared` where it is there.
fn put_new<'a, A: Allocator + Copy>(
    names: &mut Names<'a, A>,
    name: &'a Tree<A>,
) -> Result<(), ReadError> {
    if put_name(names, name)? {
        Ok(())
    } else {
        Err(fault(name.line(), ScriptErrorKind::Redeclared))
    }
}

/// Puts these among the names; `Redeclared` at the first one that stands for the second time.
fn put_all_new<'a, A: Allocator + Copy>(
    names: &mut Names<'a, A>,
    more: &'a [Tree<A>],
) -> Result<(), ReadError> {
    for name in more {
        put_new(names, name)?;
    }
    Ok(())
}

/// Puts these among the names, whether they are there or not.
fn put_each<'a, A: Allocator + Copy>(
    names: &mut Names<'a, A>,
    more: &'a [Tree<A>],
) -> Result<(), ReadError> {
    for name in more {
        let _new = put_name(names, name)?;
    }
    Ok(())
}

/// Puts the names of the constants that this declares among the names, if it declares some.
fn put_constants<'a, A: Allocator + Copy>(
    names: &mut Names<'a, A>,
    declaration: &'a Tree<A>,
) -> Result<(), ReadError> {
    match declaration {
        Tree::Node {
            form: Form::Datatype,
            parts,
            ..
        } => match parts.as_slice() {
            [_, constants] => put_each(names, name_list(constants)?),
            _ => Ok(()),
        },
        _ => Ok(()),
    }
}

/// Looks at a parameter that comes after these: `Redeclared` where it is one of them, `Unsupported` where it has the name of a constant.
fn look_at_parameter<'a, A: Allocator + Copy>(
    constants: &Names<'a, A>,
    earlier: &mut Names<'a, A>,
    parameter: &'a Tree<A>,
) -> Result<(), ReadError> {
    put_new(earlier, parameter)?;
    match parameter {
        Tree::Name { line, text } if constants.contains(text.as_slice()) => {
            Err(fault(*line, ScriptErrorKind::Unsupported))
        }
        _ => Ok(()),
    }
}

/// Looks at parameters from left to right: `Redeclared` at one that is given for the second time, `Unsupported` at one with the
/// name of a constant.
fn look_at_parameters<'a, A: Allocator + Copy>(
    alloc: A,
    constants: &Names<'a, A>,
    parameters: &'a [Tree<A>],
) -> Result<(), ReadError> {
    let mut earlier = IndexSet::new(alloc);
    for parameter in parameters {
        look_at_parameter(constants, &mut earlier, parameter)?;
    }
    Ok(())
}

/// Puts the names in this list among the names; `Redeclared` at the first one that stands for the second time.
fn put_listed<'a, A: Allocator + Copy>(
    names: &mut Names<'a, A>,
    list: &'a Tree<A>,
) -> Result<(), ReadError> {
    put_all_new(names, name_list(list)?)
}

/// Puts the names of a datatype and its constants among the names.
fn put_datatype<'a, A: Allocator + Copy>(
    names: &mut Names<'a, A>,
    name: &'a Tree<A>,
    constants: &'a Tree<A>,
) -> Result<(), ReadError> {
    put_new(names, name)?;
    put_listed(names, constants)
}

/// Puts the names of a declaration of this form with two parts among the names.
fn put_two<'a, A: Allocator + Copy>(
    names: &mut Names<'a, A>,
    form: Form,
    first: &'a Tree<A>,
    second: &'a Tree<A>,
) -> Result<(), ReadError> {
    match form {
        Form::ChannelsWithFields => put_listed(names, first),
        Form::Datatype => put_datatype(names, first, second),
        _ => put_new(names, first),
    }
}

/// Puts the name of a definition with parameters among the names; its first fault, or that of its parameters.
fn put_parametric<'a, A: Allocator + Copy>(
    alloc: A,
    constants: &Names<'a, A>,
    names: &mut Names<'a, A>,
    name: &'a Tree<A>,
    parameters: &'a Tree<A>,
) -> Result<(), ReadError> {
    put_new(names, name)?;
    look_at_parameters(alloc, constants, name_list(parameters)?)
}

/// Puts those of a declaration among the names; its first fault, where its names or parameters have one.
fn put_declared<'a, A: Allocator + Copy>(
    alloc: A,
    constants: &Names<'a, A>,
    names: &mut Names<'a, A>,
    declaration: &'a Tree<A>,
) -> Result<(), ReadError> {
    let Tree::Node { form, parts, .. } = declaration else {
        return Ok(());
    };
    match parts.as_slice() {
        [name, parameters, _] => put_parametric(alloc, constants, names, name, parameters),
        [first, second] => put_two(names, *form, first, second),
        [channels] => put_listed(names, channels),
        _ => Ok(()),
    }
}

/// Looks at the names and the parameters of declarations, where these are the names of all constants, in text order, up to the
/// first fault.
fn look_at_names<'a, A: Allocator + Copy>(
    alloc: A,
    constants: &Names<'a, A>,
    declarations: &'a [Tree<A>],
) -> Result<(), ReadError> {
    let mut names = IndexSet::new(alloc);
    for declaration in declarations {
        put_declared(alloc, constants, &mut names, declaration)?;
    }
    Ok(())
}

/// Looks at the names and the parameters of declarations, in text order, up to the first fault.
fn look_through<'a, A: Allocator + Copy>(
    alloc: A,
    declarations: &'a [Tree<A>],
) -> Result<(), ReadError> {
    let mut constants = IndexSet::new(alloc);
    for declaration in declarations {
        put_constants(&mut constants, declaration)?;
    }
    look_at_names(alloc, &constants, declarations)
}

/// The first fault in the names that a script with this tree declares, where names are declared twice or parameters aren't as
/// they have to be: `Redeclared` at a name or a parameter that is given for the second time, `Unsupported` at a parameter
/// with the name of a constant; `Memory` where it can't be looked for. Costs a few look-ups by its hash for each name.
pub fn fault_of_names<A: Allocator + Copy>(tree: &Tree<A>) -> ReadError {
    if let Tree::Node { parts, .. } = tree {
        if let Err(error) = look_through(*parts.allocator(), parts) {
            return error;
        }
    }
    fault(tree.line(), ScriptErrorKind::Expected)
}
