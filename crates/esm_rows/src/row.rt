// Rows of functions.
use crate::op::Op;
use esm_values::RcText;

/// A function as a row of operations.
#[derive(Drop)]
pub struct Row {
    /// The operations, from the end to the start: the last of those that are left is next.
    pub ops: Vec<Op>,
    /// The texts and names that they tell by their places.
    pub texts: Vec<RcText>,
    /// How many parameters the function has, which are its first names.
    pub parameters: u32,
    /// How many names its body declares, which are the next ones.
    pub names: u32,
}
