//! Modules that are accepted or refused, and the derivations of those that are accepted.

use fst_derivations::Derivation;
use fst_lexer::lex;
use fst_names::resolve;
use fst_rules::holds;
use fst_syntax::read_module;
use fst_terms::Module;
use fst_typing::check;
use std::alloc::Global;
use std::test::Fail;

const TREE: &str = "data Tree = Leaf | Node Int Tree Tree
type TreeC = rec x. +{Leaf: Skip, Node: !Int;x;x}
type TreeD = rec x. &{Leaf: Skip, Node: ?Int;x;x}
sendTree : forall a:1S. Tree -> TreeC;a -> a
sendTree t c = case t of {
  Leaf -> select Leaf c,
  Node n l r ->
    let c = select Node c in
    let c = send n c in
    let c = sendTree @(TreeC;a) l c in
    sendTree @a r c }
sumTree : forall a:1S. TreeD;a -> (Int, a)
sumTree c = match c with {
  Leaf c -> (0, c),
  Node c ->
    let (n, c) = receive c in
    let (l, c) = sumTree @(TreeD;a) c in
    let (r, c) = sumTree @a c in
    (n + l + r, c) }
main : Int
main =
  let (a, b) = new (TreeC;Close) in
  fork (close (sendTree @Close (Node 1 (Node 2 Leaf Leaf) Leaf) a));
  let (n, d) = sumTree @Wait b in wait d; n
";

/// The module that a text stands for.
fn module_of(alloc: Global, source: &str) -> Result<Module, Fail> {
    if source.len() > 1048576 {
        return Err(Fail::new("too many bytes"));
    }
    let tokens = lex(alloc, source.as_bytes())?;
    let module = read_module(alloc, &tokens, source)?;
    match resolve(alloc, &module) {
        Ok(module) => Ok(module),
        Err(_fault) => Err(Fail::new("names have a fault")),
    }
}

/// The derivations of a module that is accepted.
fn derivations_of(alloc: Global, module: &Module) -> Result<Vec<Derivation>, Fail> {
    match check(alloc, module, 1000) {
        Ok(accepted) => Ok(accepted.derivations),
        Err(_fault) => Err(Fail::new("the module is refused")),
    }
}

#[test]
fn derivations_hold_of_their_own_module(rt: HostRuntime) -> Result<(), Fail> {
    let alloc = rt.alloc();
    let tree = module_of(alloc, TREE)?;
    let derivations = derivations_of(alloc, &tree)?;
    if !holds(alloc, &tree, &derivations)? {
        return Err(Fail::new("a module's derivations don't hold"));
    }
    let number = module_of(alloc, "main : Int\nmain = 5\n")?;
    let truth = module_of(alloc, "main : Bool\nmain = True\n")?;
    let others = derivations_of(alloc, &truth)?;
    if holds(alloc, &number, &others)? || holds(alloc, &number, &derivations)? {
        return Err(Fail::new("another module's derivations hold"));
    }
    Ok(())
}
