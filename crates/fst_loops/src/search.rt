// The search for loops by a path, which is divided into parts of nodes that lead to each other (Gabow, 2000).
ghost use Rattle.std.specs.Prelude.{◌≡◌, ◌^◌, ◌<◌, ◌≤◌, [], ℕ, List, All, IfOk, OnOk, length, map};
ghost use Rattle.fst_loops.specs.Graphs.{items_of, IsGraph};
ghost use Rattle.fst_loops.specs.Searches.{mark_at, set_all, AllLeadTo, IsSearch, IsLast, IsEnded, IsClosable, IsNoted, AreOwnLoops, Advances, Exhausts};

use std::alloc::{AllocError, Global};

// What is known of a node: nothing yet, its place on the path, or all.
#[derive(Clone, Copy)]
pub(crate) enum Mark {
    Unseen,
    Open(usize),
    Done,
}

// A part of the path: the place of its first node, and how much was pending before it.
#[derive(Clone, Copy)]
pub(crate) struct Part {
    pub(crate) first: usize,
    pub(crate) before: usize,
}

// The marks of all nodes; the open ones, the parts that they are in, and the nodes to look at that they lead to;
// and what is found of those that are done.
#[derive(Drop)]
pub(crate) struct Search {
    pub(crate) marks: Vec<Mark>,
    pub(crate) path: Vec<u32>,
    pub(crate) parts: Vec<Part>,
    pub(crate) pending: Vec<u32>,
    pub(crate) order: Vec<u32>,
    pub(crate) looped: Vec<bool>,
}

fn set_all<T: Copy>(values: &mut [T], places: &[u32], value: T)
    requires { All (λ n. n < length values.old) places.now }
    ensures { values.new ≡ set_all values.old places.now value }
{
    for n in places {
        values[*n as usize] = value;
    }
}

// Where a part has several nodes, each of them lies on a loop.
fn note_loops(looped: &mut [bool], nodes: &[u32])
    requires { All (λ n. n < length looped.old) nodes.now }
    ensures { IsNoted looped.old nodes.now looped.new }
{
    if nodes.len() > 1 {
        set_all(looped, nodes, true);
    }
}

// Which nodes lead to themselves directly.
fn own_loops(alloc: Global, graph: &[Vec<u32>]) -> Result<Vec<bool>, AllocError>
    requires { length graph.now ≤ 2 ^ 32 }
    ensures { IfOk result (λ looped. AreOwnLoops (map items_of graph.now) looped.items) }
{
    let mut looped = Vec::new(alloc);
    for (x, row) in graph.iter().enumerate() {
        looped.push(row.contains(&(x as u32)))?;
    }
    Ok(looped)
}

impl Search {
    // Nothing is met yet.
    pub(crate) fn new(alloc: Global, graph: &[Vec<u32>]) -> Result<Self, AllocError>
        requires { length graph.now ≤ 2 ^ 32 }
        ensures search { IfOk result (IsSearch (map items_of graph.now)) }
        ensures closed { IfOk result (λ s. s.parts.items ≡ []) }
    {
        Ok(Search {
            marks: vec![in alloc; Mark::Unseen; graph.len()]?,
            path: Vec::new(alloc),
            parts: Vec::new(alloc),
            pending: Vec::new(alloc),
            order: Vec::new(alloc),
            looped: own_loops(alloc, graph)?,
        })
    }

    // Puts a node on the path that was not met before, with all that it leads to pending.
    fn open(&mut self, graph: &[Vec<u32>], node: u32) -> Result<(), AllocError>
        requires search { IsSearch (map items_of graph.now) self.old }
        requires node { node < length graph.now }
        requires unseen { mark_at self.old.marks.items node ≡ Mark.Unseen }
        requires led { AllLeadTo (map items_of graph.now) self.old.path.items node }
        ensures step { OnOk result (Advances (map items_of graph.now) self.old self.new) }
        ensures begun { OnOk result (mark_at self.new.marks.items node ≡ Mark.Unseen → ⊥) }
    {
        let part = Part {
            first: self.path.len(),
            before: self.pending.len(),
        };
        self.marks[node as usize] = Mark::Open(part.first);
        self.path.push(node)?;
        self.parts.push(part)?;
        self.pending.extend_from_slice(&graph[node as usize])?;
        Ok(())
    }

    // Takes the last part off the path: each of its nodes is done, and if there are several, each lies on a loop.
    fn finish(&mut self, part: Part) -> Result<(), AllocError>
        requires { IsClosable self.old part }
        ensures { (g : List (List ℕ)) → IsEnded g self.old part →
            OnOk result (Advances g self.old self.new) }
    {
        let nodes = &self.path[part.first..];
        set_all(&mut self.marks, nodes, Mark::Done);
        note_loops(&mut self.looped, nodes);
        self.order.extend_from_slice(nodes)?;
        self.path.truncate(part.first);
        self.parts.pop();
        Ok(())
    }

    // Looks at the node that is pending last. A new one is opened, and stays pending. One of an earlier part joins the
    // last part with the one before, until it is in the last part itself. Others are no longer pending.
    fn look(&mut self, graph: &[Vec<u32>], part: Part) -> Result<(), AllocError>
        requires graph { IsGraph (map items_of graph.now) }
        requires search { IsSearch (map items_of graph.now) self.old }
        requires last { IsLast self.old.parts.items part }
        requires more { part.before < length self.old.pending.items }
        ensures { OnOk result (Advances (map items_of graph.now) self.old self.new) }
    {
        let node = self.pending[self.pending.len() - 1];
        match self.marks[node as usize] {
            Mark::Unseen => self.open(graph, node),
            Mark::Open(place) => {
                if place < part.first {
                    self.parts.pop();
                } else {
                    self.pending.pop();
                }
                Ok(())
            }
            Mark::Done => {
                self.pending.pop();
                Ok(())
            }
        }
    }

    // One step: at the last part's end it is finished.
    fn step(&mut self, graph: &[Vec<u32>], part: Part) -> Result<(), AllocError>
        requires graph { IsGraph (map items_of graph.now) }
        requires search { IsSearch (map items_of graph.now) self.old }
        requires last { IsLast self.old.parts.items part }
        ensures { OnOk result (Advances (map items_of graph.now) self.old self.new) }
    {
        if self.pending.len() <= part.before {
            self.finish(part)
        } else {
            self.look(graph, part)
        }
    }

    // Finds all that the node leads to, where it was not met before.
    pub(crate) fn run(&mut self, graph: &[Vec<u32>], start: u32) -> Result<(), AllocError>
        requires graph { IsGraph (map items_of graph.now) }
        requires search { IsSearch (map items_of graph.now) self.old }
        requires closed { self.old.parts.items ≡ [] }
        requires start { start < length graph.now }
        ensures { OnOk result (Exhausts (map items_of graph.now) self.old self.new start) }
    {
        let Mark::Unseen = self.marks[start as usize] else {
            return Ok(());
        };
        self.open(graph, start)?;
        while let Some(part) = self.parts.last().copied() {
            self.step(graph, part)?;
        }
        Ok(())
    }
}
