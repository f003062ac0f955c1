//! A whole configuration, or its first fault.

use conf_text::{Conf, ConfAnswer, notices, read_conf};
use net_types::NoMemory;
use std::alloc::Global;

/// Its hooks and its notices.
fn notices_said(alloc: Global, conf: &Conf) -> Result<String, NoMemory> {
    let hooks = if conf.turns_hooks_off() {
        "without hooks"
    } else {
        "with hooks"
    };
    let mut said = hooks.to_string(alloc)?;
    for notice in notices(conf) {
        let told = format!(in alloc; ", notice {} {}", notice.line, notice.word)?;
        said.push_str(told.as_str())?;
    }
    Ok(said)
}

/// What a text is as a configuration.
pub(crate) fn conf_said(alloc: Global, text: &[u8]) -> Result<String, NoMemory> {
    match read_conf(alloc, text) {
        Ok(conf) => notices_said(alloc, &conf),
        Err(answer) => Ok(format!(in alloc; "{answer}")?),
    }
}

/// What is said where there is no memory.
pub(crate) fn no_memory_said(alloc: Global) -> Result<String, NoMemory> {
    Ok(format!(in alloc; "{}", ConfAnswer::NoMemory)?)
}
