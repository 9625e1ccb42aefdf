ghost use Rattle.std.specs.Prelude.{◌≡◌};
ghost use Rattle.grammar.specs.declared.tree.Node.{Node};
ghost use Rattle.grammar.specs.declared.tree.Node.TheVariants.{«Type», Expression, Item};

use crate::tree::{ExpNode, Item, Node, TypeNode};

// What stands in a place of the table.
pub trait Placed: Copy {
    ghost as_node: { Self → Node };

    fn node(self) -> Node
        ensures { result ≡ as_node self };
}

impl Placed for TypeNode {
    ghost as_node = { «Type» };

    fn node(self) -> Node {
        Node::Type(self)
    }
}

impl Placed for ExpNode {
    ghost as_node = { Expression };

    fn node(self) -> Node {
        Node::Expression(self)
    }
}

impl Placed for Item {
    ghost as_node = { Item };

    fn node(self) -> Node {
        Node::Item(self)
    }
}
