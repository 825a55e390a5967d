ghost use Rattle.std.specs.Prelude.{◌≡◌};
ghost use Rattle.fst_parts.specs.Keys.{form_number, node_mark};

/// The form of a type's node, without what it holds: an arrow has one for each use, and `Skip` is nothing at all.
#[derive(Clone, Copy)]
pub(crate) enum Form {
    Send,
    Receive,
    Close,
    Wait,
    Select,
    Offer,
    Seq,
    Rec,
    Back,
    Var,
    Plain,
    Many,
    Once,
    Pair,
    Named,
}

impl Form {
    /// What stands for the form in a key.
    pub(crate) fn number(self) -> usize
        ensures { result ≡ form_number self }
    {
        match self {
            Form::Send => 0,
            Form::Receive => 1,
            Form::Close => 13,
            Form::Wait => 14,
            Form::Select => 2,
            Form::Offer => 3,
            Form::Seq => 4,
            Form::Rec => 5,
            Form::Back => 6,
            Form::Var => 7,
            Form::Plain => 8,
            Form::Many => 9,
            Form::Once => 10,
            Form::Pair => 11,
            Form::Named => 12,
        }
    }
}

/// How a node's key is built: of what it holds, of one part, of two, or of a branch and those behind it.
#[derive(Clone, Copy)]
pub(crate) enum Node {
    Leaf,
    Wrap,
    Fork,
    Link,
}

impl Node {
    /// What such a key begins with.
    pub(crate) fn mark(self) -> usize
        ensures { result ≡ node_mark self }
    {
        match self {
            Node::Leaf => 1,
            Node::Wrap => 2,
            Node::Fork => 3,
            Node::Link => 4,
        }
    }
}
