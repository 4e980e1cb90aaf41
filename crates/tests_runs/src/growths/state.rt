//! The state of a store as one line.

use crate::growths::bytes::{print_bytes, print_pair};
use bootstore_state::Store;
use std::io;

/// Prints all that a store says of its state.
pub(crate) fn print_state<S: Store>(rt: &impl Print, store: &S) -> io::Result<()> {
    print!(rt;
        " status {} steps {} begun {} log {}",
        store.get_status(),
        store.steps(),
        store.begun(),
        store.log().len()
    )?;
    print_top(rt, store)?;
    print_texts(rt, store)?;
    print!(rt; " env")?;
    for (name, value) in store.variables() {
        print_pair(rt, name, value)?;
    }
    println!(rt; "")
}

/// Prints the text, and the value of the variable `x` of the shell.
fn print_texts<S: Store>(rt: &impl Print, store: &S) -> io::Result<()> {
    print!(rt; " text [")?;
    print_bytes(rt, store.text().unwrap_or(b""))?;
    print!(rt; "] local x [")?;
    print_bytes(rt, store.get_local(b"x").unwrap_or(b"unset"))?;
    print!(rt; "]")
}

fn print_top<S: Store>(rt: &impl Print, store: &S) -> io::Result<()> {
    match store.top() {
        Some(frame) => {
            let at = frame.at();
            print!(rt;
                " top {:?} at {} {} {} {}",
                frame.kind(),
                at.list,
                at.command,
                at.turn,
                at.last
            )
        }
        None => print!(rt; " no frame"),
    }
}
