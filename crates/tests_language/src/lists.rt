//! Device lists.

use crate::calls::devices_of;
use crate::case::Case;
use device_list::{BoardEnd, Devices, Effect, LeftSide, RightSide, Setting};
use std::alloc::{AllocError, Global};
use tests_rows::{first_word, shown, unescaped, words_of};

/// A value as a device list writes it.
fn value_of(alloc: Global, value: &RightSide) -> Result<String, AllocError> {
    match value {
        RightSide::Literal(text) => shown(alloc, text),
        RightSide::ValueAt(at) => {
            let at = at.saturating_add(1);
            format!(in alloc; "@{at}")
        }
        RightSide::LastValue => String::from_str(alloc, "@last"),
        RightSide::Deleted => String::from_str(alloc, ""),
        RightSide::CopyOf(name) => shown(alloc, name),
    }
}

/// A setting as a device list writes it, after a space.
fn setting_of(alloc: Global, setting: &Setting) -> Result<String, AllocError> {
    let value = value_of(alloc, &setting.value)?;
    match &setting.left {
        LeftSide::Variable(name) | LeftSide::Imported { name, .. } => {
            let name = shown(alloc, name)?;
            format!(in alloc; " {name}={value}")
        }
        LeftSide::WordAt(at) => {
            let at = at.saturating_add(1);
            format!(in alloc; " @{at}={value}")
        }
        LeftSide::LastWord => format!(in alloc; " @last={value}"),
        LeftSide::Saving => String::from_str(alloc, " saves"),
    }
}

/// What the only answer of a call adds to its effect.
fn only_answer(always: Option<bool>) -> &'static str {
    match always {
        None => "",
        Some(true) => " always 0",
        Some(false) => " always 1",
    }
}

/// An effect: `final` if it ends the run, else `sets`, the only answer if it has one, and its settings.
fn effect_of(alloc: Global, effect: Effect<'_>) -> Result<String, AllocError> {
    let start = match effect.ends {
        Some(BoardEnd::Boots) => "final",
        Some(BoardEnd::Restarts) => "restart",
        Some(BoardEnd::Halts) => "halt",
        None => "sets",
    };
    let mut line = String::from_str(alloc, start)?;
    line.push_str(only_answer(effect.always))?;
    for setting in effect.sets {
        line.push_str(setting_of(alloc, setting)?.as_str())?;
    }
    Ok(line)
}

/// Whether a text is a device list.
fn list(alloc: Global, says: &str) -> anyhow::Result<String> {
    let devices = devices_of(alloc, &unescaped(alloc, says)?)?;
    drop(devices);
    Ok(String::from_str(alloc, "a device list")?)
}

/// Whether a device list has a name.
fn has(alloc: Global, devices: &Devices, says: &str) -> anyhow::Result<String> {
    let has = devices.has(&unescaped(alloc, says)?);
    Ok(format!(in alloc; "{has}")?)
}

/// The effect that a device list gives a call.
fn effect(alloc: Global, devices: &Devices, says: &str) -> anyhow::Result<String> {
    let (name, words) = first_word(says);
    let (name, words) = (unescaped(alloc, name)?, words_of(alloc, words)?);
    let answer = match devices.effect(&name, &words) {
        Some(effect) => effect_of(alloc, effect),
        None => String::from_str(alloc, "no such call"),
    };
    Ok(answer?)
}

/// The answer to a row of device lists.
pub(crate) fn listed(case: &Case, word: &str, says: &str) -> anyhow::Result<String> {
    if word == "list" {
        return list(case.alloc, says);
    }
    let devices = devices_of(case.alloc, &case.devices)?;
    let told = match word {
        "has" => has(case.alloc, &devices, says),
        _ => effect(case.alloc, &devices, says),
    };
    drop(devices);
    told
}
