//! The lines of a flow.
ghost use Rattle.std.specs.Prelude.{◌≡◌, ◌++◌, IfOk, OnOk, map};
ghost use Rattle.std.specs.List.{flat_map};
ghost use Rattle.text.specs.Escapes.{word_form};
ghost use Rattle.text.specs.TextsShown.{bytes_of_words};
ghost use Rattle.text.specs.TextsShown.{spaced};
ghost use Rattle.text.specs.Words.{joined_words};
ghost use Rattle.rehearse_states.specs.Drawing.{node_shown, nodes_shown};
ghost use Rattle.rehearse_states.specs.Flow.{node_text, flow_text};

use crate::ending_lines::{put, put_ending, put_number, put_word};
use crate::flow::Node;
use bootstore_state::StoreError;
use std::alloc::Global;

/// Adds words in word form, with a blank before each.
fn put_spaced(text: &mut Vec<u8>, words: &[Vec<u8>]) -> Result<(), StoreError>
    ensures { OnOk result (text.new.items ≡ text.old.items ++ flat_map spaced words.now) }
{
    for word in words {
        put(text, b" ")?;
        put_word(text, word)?;
    }
    Ok(())
}

/// Adds words in word form, with a blank between them.
pub(crate) fn put_words(text: &mut Vec<u8>, words: &[Vec<u8>]) -> Result<(), StoreError>
    ensures { OnOk result (text.new.items
        ≡ text.old.items ++ joined_words (map word_form (bytes_of_words words.now))) }
{
    match words.split_first() {
        None => Ok(()),
        Some((first, rest)) => {
            put_word(text, first)?;
            put_spaced(text, rest)?;
            Ok(())
        }
    }
}

/// Adds the line of a node, without its number.
fn put_node(text: &mut Vec<u8>, node: &Node) -> Result<(), StoreError>
    ensures { OnOk result (text.new.items ≡ text.old.items ++ node_text (node_shown node.now)) }
{
    match node {
        Node::Asks {
            words,
            success,
            failure,
        } => {
            put(text, b"ask ")?;
            put_words(text, words)?;
            put(text, b" success ")?;
            put_number(text, *success as u128)?;
            put(text, b" failure ")?;
            put_number(text, *failure as u128)
        }
        Node::Ends(halt) => {
            put(text, b"ends ")?;
            put_ending(text, halt)
        }
    }
}

/// The lines of all nodes, numbered from 1.
pub fn flow_text_of(alloc: Global, nodes: &Vec<Node>) -> Result<Vec<u8>, StoreError>
    ensures { IfOk result (λ text. text.items ≡ flow_text (nodes_shown nodes.now)) }
{
    let mut text = Vec::new(alloc);
    let mut number: u128 = 1;
    for node in nodes {
        put_number(&mut text, number)?;
        put(&mut text, b" ")?;
        put_node(&mut text, node)?;
        put(&mut text, b"\n")?;
        number += 1;
    }
    Ok(text)
}
