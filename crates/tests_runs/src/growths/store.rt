//! Makes one row of changes on a store of each kind and prints the state after each. Where a change is refused it
//! prints the state that is left, and makes the change again.

use crate::growths::change::{Parts, ROW, make};
use crate::growths::state::print_state;
use bootstore_copies::Plain;
use bootstore_state::Store;
use bootstore_trail::Trail;
use std::io;

/// Makes the row of changes on a store.
fn run_row<S: Store>(rt: &impl Print, parts: &Parts, store: &mut S) -> io::Result<()> {
    print!(rt; "New:")?;
    print_state(rt, store)?;
    for change in ROW {
        let mut made = make(parts, store, change);
        for _ in 0..2 {
            if made.is_ok() {
                break;
            }
            print!(rt; "refused {change:?}:")?;
            print_state(rt, store)?;
            made = make(parts, store, change);
        }
        if made.is_err() {
            return println!(rt; "given up");
        }
        print!(rt; "{change:?}:")?;
        print_state(rt, store)?;
    }
    Ok(())
}

/// Makes the row on a store of this kind.
fn run_on<S: Store>(rt: &HostRuntime, name: &str, parts: &Parts) -> io::Result<()> {
    println!(rt; "{name}")?;
    let mut store = S::new(rt.alloc());
    let told = run_row(rt, parts, &mut store);
    drop(store);
    told
}

/// Makes the row on both stores.
fn run_both(rt: &HostRuntime, parts: &Parts) -> io::Result<()> {
    run_on::<Plain>(rt, "plain", parts)?;
    run_on::<Trail>(rt, "trail", parts)
}

/// Makes the row on both stores, if there is memory to start with.
pub(crate) fn run(rt: &HostRuntime) -> io::Result<()> {
    match Parts::new(rt.alloc()) {
        Ok(parts) => {
            let told = run_both(rt, &parts);
            drop(parts);
            told
        }
        Err(_) => println!(rt; "no memory to begin with"),
    }
}
