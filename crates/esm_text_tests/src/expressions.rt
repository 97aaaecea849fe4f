// First expressions of texts, with places counted by hand.
use crate::telling::{Told, has_rows, none};
use crate::tokens::{count_of, rows_in, unmarked};
use esm_base::{ReadEnd, TextFault};
use esm_lexer::tokens;
use esm_parse_expr::parse_expr;
use esm_tree::Tree;
use std::alloc::{AllocError, Global};

// The place behind the expression at the first token, or 0 where none begins there; and behind ` | ` the text, in which ↵ is a
// line feed.
const FIRST: &str = r#"3 | a + b ;
1 | a
17 | !a.b(c, d,)↵=== "e" || new Error()
1 | a↵b
4 | print(a) = b
5 | import.meta.url
0 | ;"#;

// The place behind the expression at the first token; 0 where none begins there, with nothing added to the tree.
fn behind_first(alloc: Global, tree: &mut Tree, text: &[u8]) -> Option<usize> {
    if text.len() > 1000 {
        return None;
    }
    match tokens(alloc, text) {
        Ok(found) => match parse_expr(alloc, text, &found, 0, tree) {
            Ok((_, behind)) => Some(behind),
            Err(ReadEnd::Fault(TextFault::P2)) => {
                if tree.mark().exprs == 0 {
                    Some(0)
                } else {
                    None
                }
            }
            Err(_end) => None,
        },
        Err(_end) => None,
    }
}

// Whether the first expression of a row's text ends as the row says.
fn is_row_told(alloc: Global, row: &str) -> Result<bool, AllocError> {
    let Some((wanted, text)) = row.split_once(" | ") else {
        return Ok(false);
    };
    let text = unmarked(alloc, text)?;
    let mut tree = Tree::new(alloc);
    match behind_first(alloc, &mut tree, text.as_bytes()) {
        Some(place) => Ok(count_of(wanted) == Some(place)),
        None => Ok(false),
    }
}

// The first row of `FIRST` that ends otherwise, if there is one.
fn wrong_row(alloc: Global) -> Result<Option<&'static str>, AllocError> {
    for row in FIRST.lines() {
        if !is_row_told(alloc, row)? {
            return Ok(Some(row));
        }
    }
    Ok(None)
}

#[test]
fn first_expression(rt: HostRuntime) -> Told {
    none(wrong_row(rt.alloc())).and(has_rows(rows_in(FIRST), 7))
}
