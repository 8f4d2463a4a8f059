//! Nodes with their books of forwarded payments.

ghost use Rattle.std.specs.Prelude.{◌≡◌, position, OnOk, IfOk, IfErr, Some};
ghost use Rattle.ln_refusals.specs.declared.refusal.Refusal.TheVariants as refusal;
ghost use Rattle.ln_world_channels.specs.WorldChannel.{is_node};
ghost use Rattle.ln_world.specs.Node.{new_node, new_policy, changed};

use ln_book::Book;
use ln_forward::Policy;
use ln_refusals::Refusal;
use ln_world_dispatch::Node;
use std::alloc::Global;

/// What a node has beside its channels.
#[derive(Drop)]
pub struct NodeBook {
    /// The node.
    pub node: Node,
    /// What it asks for a payment that it forwards.
    pub policy: Policy,
    /// Its book of forwarded payments.
    pub book: Book,
}

// A node of which nothing was said. Takes no memory.
fn new_node(alloc: Global, node: Node) -> NodeBook
    ensures { result ≡ new_node node }
{
    let mut book = Book::new(alloc);
    book.set_height(100);
    NodeBook {
        node,
        policy: Policy {
            base: 1000,
            proportional: 100,
            delta: 40,
        },
        book,
    }
}

/// Where a node stands, if something was said of it.
pub(crate) fn index_of(nodes: &[NodeBook], node: Node) -> Option<usize>
    ensures { result ≡ position (λ x. is_node x.node node) nodes.now }
{
    nodes
        .iter()
        .position(|entry| entry.node.letter == node.letter)
}

/// Where a node stands; it joins the others, as a new one, where nothing was said of it. 60 where there is no memory.
pub(crate) fn place_for(
    alloc: Global,
    nodes: &mut Vec<NodeBook>,
    node: Node,
) -> Result<usize, Refusal>
    ensures place { IfOk result (λ i. position (λ x. is_node x.node node) nodes.new.items ≡ Some i) }
    ensures same { OnOk result (nodes.new.items ≡ changed node (λ x. x) nodes.old.items) }
    ensures fails_for_memory_alone { IfErr result (λ e. e ≡ refusal.Memory) }
{
    match index_of(nodes, node) {
        Some(i) => Ok(i),
        None => {
            let i = nodes.as_slice().len();
            nodes.push(new_node(alloc, node))?;
            Ok(i)
        }
    }
}
