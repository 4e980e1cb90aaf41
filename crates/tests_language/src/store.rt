//! Changes of both stores, and what they hold.

use crate::both::agreed;
use crate::calls::env_of;
use crate::case::Case;
use crate::language::row_of;
use bootstore_state::{At, Frame, FrameKind, LogEntry, Store, StoreError};
use hushlang::Script;
use rehearse_terms::Written;
use std::alloc::{AllocError, Global};
use std::fmt::Write;
use std::rc::Rc;
use tests_rows::{first_word, number, shown, unescaped, words_of};

/// Where a frame is pushed.
const START: At = At {
    list: 0,
    command: 0,
    turn: 0,
    last: 0,
};

/// Where `advance` moves it.
const FURTHER: At = At {
    list: 1,
    command: 2,
    turn: 3,
    last: 4,
};

/// Begins both stores anew, with the variables of a case.
fn start(case: &mut Case) -> anyhow::Result<String> {
    let env = env_of(case)?;
    case.stores.0.start(&env, Written::Kept)?;
    case.stores.1.start(&env, Written::Kept)?;
    Ok(String::new(case.alloc))
}

fn empty_script(alloc: Global) -> Result<Rc<Script>, AllocError> {
    let lists = Vec::new(alloc);
    Ok(Rc::new(alloc, Script { lists })?)
}

/// Pushes a frame: `text`, or `for WORD..`.
fn push<S: Store>(alloc: Global, store: &mut S, change: &str, says: &str) -> anyhow::Result<()> {
    let script = empty_script(alloc)?;
    let frame = match change {
        "text" => Frame::new(FrameKind::Text, script, START),
        _ => {
            let words = Rc::new(alloc, words_of(alloc, says)?)?;
            Frame::with_words(FrameKind::For, script, words, START)
        }
    };
    Ok(store.push(frame)?)
}

/// Moves: `mark`, `back`, `advance`, `pop`, or a frame that is pushed.
fn move_one<S: Store>(
    alloc: Global,
    store: &mut S,
    change: &str,
    says: &str,
) -> anyhow::Result<()> {
    match change {
        "mark" => Ok(store.mark()?),
        "back" => {
            store.back();
            Ok(())
        }
        "advance" => Ok(store.advance(FURTHER)?),
        "pop" => Ok(store.pop()?),
        _ => push(alloc, store, change, says),
    }
}

/// Counts a step. The bounds of both counts are far.
fn count_step<S: Store>(store: &mut S) -> anyhow::Result<()> {
    if store.steps() < 1_000_000 && store.begun() < 1_000_000 {
        store.count_step()?;
    }
    Ok(())
}

/// Logs a device command that succeeded.
fn log_one<S: Store>(alloc: Global, store: &mut S, says: &str) -> anyhow::Result<()> {
    let words = words_of(alloc, says)?;
    Ok(store.device(LogEntry {
        success: true,
        words,
        stays: false,
        again: false,
    })?)
}

/// Sets a variable of the environment or of the shell, deletes one, or writes a text.
fn put_one<S: Store>(
    store: &mut S,
    change: &str,
    name: &[u8],
    value: &[u8],
) -> Result<(), StoreError> {
    match change {
        "set" => store.set_env(name, Some(value)),
        "unset" => store.set_env(name, None),
        "local" => store.set_local(name, value),
        _ => store.echo(name),
    }
}

/// Makes a change of a variable, or of the text.
fn change_text<S: Store>(
    alloc: Global,
    store: &mut S,
    change: &str,
    says: &str,
) -> anyhow::Result<()> {
    let (name, value) = first_word(says);
    let (name, value) = (unescaped(alloc, name)?, unescaped(alloc, value)?);
    Ok(put_one(store, change, &name, &value)?)
}

/// Makes a change of a store.
fn change_one<S: Store>(
    alloc: Global,
    store: &mut S,
    change: &str,
    says: &str,
) -> anyhow::Result<()> {
    match change {
        "set" | "unset" | "local" | "echo" => change_text(alloc, store, change, says),
        "status" => Ok(store.set_status(u8::try_from(number(says)?)?)?),
        "log" => log_one(alloc, store, says),
        "step" => count_step(store),
        _ => move_one(alloc, store, change, says),
    }
}

/// Makes a change of both stores.
fn change(case: &mut Case, says: &str) -> anyhow::Result<String> {
    let (change, says) = first_word(says);
    change_one(case.alloc, &mut case.stores.0, change, says)?;
    change_one(case.alloc, &mut case.stores.1, change, says)?;
    Ok(String::new(case.alloc))
}

/// The variables of a store, a space before each.
fn variables_of<S: Store>(alloc: Global, store: &S) -> Result<String, AllocError> {
    let mut text = String::new(alloc);
    for (name, value) in store.variables() {
        let (name, value) = (shown(alloc, name)?, shown(alloc, value)?);
        write!(text, " {name}={value}")?;
    }
    Ok(text)
}

/// The entries of the log of a store, a space before each.
fn log_of<S: Store>(alloc: Global, store: &S) -> Result<String, AllocError> {
    let mut text = String::new(alloc);
    for entry in store.log() {
        let words = row_of(alloc, &entry.words, false)?;
        let success = entry.success;
        write!(text, " {words} {success}")?;
    }
    Ok(text)
}

/// The top frame of a store.
fn top_of<S: Store>(alloc: Global, store: &S) -> Result<String, AllocError> {
    let Some(top) = store.top() else {
        return String::from_str(alloc, "none");
    };
    let (kind, at) = (top.kind(), top.at());
    let (words, lists) = (top.words().len(), top.script().lists.len());
    format!(in alloc; "{kind:?}, {words} words, {lists} lists, {at:?}")
}

/// What a store holds.
fn show_one<S: Store>(alloc: Global, store: &S) -> anyhow::Result<String> {
    let variables = variables_of(alloc, store)?;
    let env = shown(alloc, store.get_env(b"a").unwrap_or(b"|"))?;
    let local = shown(alloc, store.get_local(b"a").unwrap_or(b"|"))?;
    let (text, log) = (
        shown(alloc, store.text().unwrap_or(b""))?,
        log_of(alloc, store)?,
    );
    let (status, steps, begun) = (store.get_status(), store.steps(), store.begun());
    let top = top_of(alloc, store)?;
    Ok(format!(in alloc;
        "variables:{variables}\na {env}, in the shell {local}\ntext {text}, status {status}, steps {steps}, begun {begun}\nlog:{log}\ntop {top}"
    )?)
}

/// What both stores hold.
fn show(case: &Case) -> anyhow::Result<String> {
    let plain = show_one(case.alloc, &case.stores.0);
    let trail = show_one(case.alloc, &case.stores.1);
    agreed(case.alloc, plain, trail)
}

/// The answer to a row of the stores.
pub(crate) fn told(case: &mut Case, word: &str, says: &str) -> anyhow::Result<String> {
    match word {
        "start" => start(case),
        "store" => change(case, says),
        _ => show(case),
    }
}
