ghost use Rattle.std.specs.Prelude.{◌≤◌, ◌^◌, IfOk, length, map};
ghost use Rattle.fst_loops.specs.Graphs.{items_of, IsGraph, IsOrder};

use crate::search::Search;
use std::alloc::{AllocError, Global};

/// The nodes of a graph in an order, and which of them lie on a loop.
#[derive(Drop)]
pub struct Order {
    pub order: Vec<u32>,
    pub looped: Vec<bool>,
}

/// Which nodes of a graph lie on a loop, and an order in which each node that lies on none stands behind all that
/// it leads to directly. The graph lists for each node those that it leads to. Takes time in proportion to nodes
/// and edges (Gabow, Path-based depth-first search for strong and biconnected components, 2000).
pub fn order_of(alloc: Global, graph: &[Vec<u32>]) -> Result<Order, AllocError>
    requires graph { IsGraph (map items_of graph.now) }
    requires count { length graph.now ≤ 2 ^ 32 }
    ensures { IfOk result (λ o. IsOrder (map items_of graph.now) o.order.items o.looped.items) }
{
    let mut search = Search::new(alloc, graph)?;
    for start in 0..graph.len() {
        search.run(graph, start as u32)?;
    }
    Ok(Order {
        order: search.order,
        looped: search.looped,
    })
}
