//! What names in modules stand for, and the faults of names and sizes that modules have.

use fst_lexer::lex;
use fst_names::{NameFault, resolve};
use fst_syntax::read_module;
use fst_tables::each_pair;
use fst_terms::Module;
use fst_types::size;
use std::alloc::Global;
use std::str;
use std::test::Fail;

/// The globals of a module with their places, the numbers of their types and where these begin, its data types with the
/// numbers of their fields' types, and the place of each type with how many nodes it has.
fn parts_text(alloc: Global, module: &Module) -> Result<String, Fail> {
    let mut text = String::new(alloc);
    for global in &module.globals {
        let name = str::from_utf8(global.name.as_slice())?;
        write!(
            text,
            "{name}@{}:{}@{} ",
            global.at, global.signature, global.signature_at
        )?;
    }
    for family in &module.families {
        text.push('|')?;
        for maker in &family.makers {
            write!(text, " {}", str::from_utf8(maker.name.as_slice())?)?;
            for field in &maker.fields {
                write!(text, " {field}")?;
            }
        }
        text.push(' ')?;
    }
    for (its_type, at) in module.types.iter().zip(&module.places) {
        write!(text, "; {at} {}", size(its_type))?;
    }
    Ok(text)
}

/// The parts of the module that a text stands for, or its fault.
fn resolved_row(alloc: Global, given: &str) -> Result<String, Fail> {
    if given.len() > 1048576 {
        return Err(Fail::new("too many bytes"));
    }
    let tokens = lex(alloc, given.as_bytes())?;
    let module = read_module(alloc, &tokens, given)?;
    let mut text = String::new(alloc);
    match resolve(alloc, &module) {
        Ok(module) => text.push_str(&parts_text(alloc, &module)?)?,
        Err(NameFault::Unbound(at, name)) => {
            write!(text, "unbound {at} {}", str::from_utf8(name.as_slice())?)?
        }
        Err(NameFault::Twice(at, name)) => {
            write!(text, "twice {at} {}", str::from_utf8(name.as_slice())?)?
        }
        Err(NameFault::Arity(at, got, wanted)) => write!(text, "arity {at} {got} {wanted}")?,
        Err(NameFault::AliasLoop(at, name)) => {
            write!(text, "loop {at} {}", str::from_utf8(name.as_slice())?)?
        }
        Err(NameFault::TooLarge(at)) => write!(text, "too large {at}")?,
        Err(NameFault::NoMain) => text.push_str("no main")?,
        Err(NameFault::Memory) => return Err(Fail::new("no memory")),
    }
    Ok(text)
}

const FAULTS: [(&str, &str); 18] = [
    // alias-loop, signature-alone, twice-made
    ("type A = B\ntype B = A", "loop 5 A"),
    ("main : Int", "unbound 0 main"),
    ("data D = A | A", "twice 13 A"),
    // an equation alone, and nothing named main only where nothing else is wrong
    ("main = 0", "unbound 0 main"),
    ("f : Int\nf = 0", "no main"),
    ("f : Int\nf = x", "unbound 12 x"),
    ("", "no main"),
    // an alias that only leads to a loop, and a second declaration that leads to none
    ("type C = A\ntype A = A", "loop 16 A"),
    ("type A = Int\ntype A = A", "twice 18 A"),
    // a global before types, whatever variables there are
    ("main : Int\nmain = let x = 1 in x @Int", "unbound 31 x"),
    // variables of a signature are no names in a type of a channel, nor in fields
    (
        "f : forall a:1S. Int\nf = let (x, y) = new a in 0",
        "unbound 42 a",
    ),
    ("data D = C a", "unbound 11 a"),
    // parameters, by the arrows behind aliases
    (
        "type F = Int -> Int\nmain : F\nmain x = x\n",
        "main@29:1@27 ; 9 3; 27 3; 27 1",
    ),
    ("type F = Int\nmain : F\nmain x = x\n", "arity 22 1 0"),
    ("data D = C Int\nmain : D\nmain = C", "arity 31 0 1"),
    (
        "data D = C Int\nmain : D -> Int\nmain d = case d of {C x y -> x}",
        "arity 51 2 1",
    ),
    // the least place
    ("main : Z\nmain = y", "unbound 7 Z"),
    ("main = y\nmain : Z", "unbound 7 y"),
];

#[test]
fn names_have_faults(rt: HostRuntime) -> Result<(), Fail> {
    each_pair(rt.alloc(), &FAULTS, resolved_row)
}

const RESOLVED: [(&str, &str); 5] = [
    ("main : Int\nmain = 0", "main@11:0@7 ; 7 1"),
    // types in order of text, and behind them those of parameters
    (
        "f : Int -> Char 1-> Int\ndata D = C Char D | E\nmain = 0\nf x y = 5\nmain : Int",
        "main@46:3@72 f@55:0@4 | C 1 2 E ; 4 5; 35 1; 40 1; 72 1; 4 1; 4 1",
    ),
    // aliases of aliases are written out, at each place
    (
        "type A = !Int;B\ntype B = +{X: A, Y: C}\ntype C = Skip\nmain : Int\nmain = 0",
        "loop 5 A",
    ),
    (
        "type A = !Int;B\ntype B = +{X: C, Y: C}\ntype C = Skip\nmain : Int\nmain = let (x, y) = new A in 0",
        "main@64:3@60 ; 9 7; 25 5; 48 1; 60 1; 88 7",
    ),
    // an inner binder hides, and so does a later one of a pattern
    (
        "main : Int\nmain = let x = 1 in let x = x in (\\x:Int -> x) x",
        "main@11:0@7 ; 7 1; 48 1",
    ),
];

#[test]
fn names_stand_for_numbers(rt: HostRuntime) -> Result<(), Fail> {
    each_pair(rt.alloc(), &RESOLVED, resolved_row)
}
