// Texts of nodes.
ghost use Rattle.std.specs.Prelude.{◌≡◌, ◌≤◌, IfOk, length, take};
ghost use Rattle.std.specs.Str.{IsUtf8};

use esm_base::{Memory, Text};
use std::alloc::Global;
use std::marker::Model;
use std::str;

// How many bytes lie in the node.
const SHORT: usize = 22;

// Where the bytes lie.
#[derive(Drop)]
enum Form {
    // In the node: how many, and the bytes with what is behind them.
    Short(u8, [u8; SHORT]),
    // In memory of their own.
    Long(Box<Text>),
}

/// A UTF-8 text of a node. Up to 22 bytes lie in the node itself and take no memory of their own: most names and many
/// literals are as short. Contracts see its bytes.
#[derive(Drop)]
pub struct NodeText {
    form: Form,
}

impl Model for NodeText {
    ghost use Rattle.std.specs.Prelude.{List, ℕ};
    ghost use Rattle.esm_tree.specs.NodeText.{bytes_of, IsForm};

    ghost Value = { List ℕ };

    ghost view = { λ t. bytes_of t.form };

    ghost invariant = { λ t. IsForm t.form };
}

// These bytes, with zeros behind them.
fn padded(bytes: &[u8]) -> [u8; SHORT]
    requires { length bytes.now ≤ 22 }
    ensures { take (length bytes.now) result ≡ bytes.now }
{
    let mut all = [0; SHORT];
    all[..bytes.len()].copy_from_slice(bytes);
    all
}

impl NodeText {
    /// The same text, owned.
    pub fn copy(alloc: Global, from: &str) -> Result<NodeText, Memory>
        ensures { IfOk result (λ t. t ≡ from.now) }
    {
        let bytes = from.as_bytes();
        if bytes.len() <= SHORT {
            return Ok(NodeText {
                form: Form::Short(bytes.len() as u8, padded(bytes)),
            });
        }
        let text = Text::copy(alloc, from)?;
        let text = Box::new(alloc, text)?;
        Ok(NodeText {
            form: Form::Long(text),
        })
    }

    /// The text. It doesn't allocate.
    pub fn as_str(&self) -> &str
        ensures value { result.now ≡ self.now }
        ensures utf8 { IsUtf8 result.now }
    {
        match &self.form {
            Form::Short(len, bytes) => match str::from_utf8(&bytes[..*len as usize]) {
                Ok(text) => text,
                Err(_) => "",
            },
            Form::Long(text) => text.as_str(),
        }
    }
}
