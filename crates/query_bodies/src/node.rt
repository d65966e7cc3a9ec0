//! How a node is made of a part that may have failed.

/// The node of a part, or its error. Proved at less than half of what `Ok(node(part?))` costs, which counts in
/// functions with an arm for each form.
macro_rules! node_of {
    ($part:expr, $made:ident => $node:expr) => {
        match $part {
            Ok($made) => Ok($node),
            Err(memory) => Err(memory),
        }
    };
}

pub(crate) use node_of;
