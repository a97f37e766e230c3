//! Conversations as scripts write them, each played once as it is written and then with each call of the outside failing in its turn.

mod call_end;
mod caller;
mod command;
mod conversation;
mod cut;
mod device;
mod draft;
mod files;
mod folder;
mod halts;
mod late_pace;
mod play;
mod script;

use crate::scripted::caller::{Caller, Failing};
use crate::scripted::conversation::Conversation;
use crate::scripted::play::{check, check_cuts};
use crate::scripted::script::Script;
use anyhow::{Context, Result, bail};
use std::rt::{Clock, Env, Files};
use std::sync::Wait;
use std::thread::Threads;
use std::{env, fs};

// How many conversations were played, and how many of them didn't go as written.
#[derive(Clone, Copy)]
struct Count {
    played: u64,
    otherwise: u64,
}

/// Plays the scripts that the words of the program name, and answers how many conversations didn't go as written.
pub fn play_all<R: Env + Files + Print + AllocGlobal + Clock + Threads + Wait + Sync>(
    rt: &R,
) -> Result<u64> {
    let mut count = Count {
        played: 0,
        otherwise: 0,
    };
    for name in env::args(rt)?.skip(1) {
        play_script(rt, name.as_str(), &mut count)?;
    }
    let Count { played, otherwise } = count;
    println!(rt; "{played} conversations")?;
    Ok(otherwise)
}

fn play_script<R: Files + Print + AllocGlobal + Clock + Threads + Wait + Sync>(
    rt: &R,
    name: &str,
    count: &mut Count,
) -> Result<()> {
    let text = fs::read_to_string(rt, name).context(format_args!("reading {name}"))?;
    play_text(rt, text.as_str(), count).context(format_args!("in {name}"))
}

// Plays the conversations of a script.
fn play_text<R: Print + AllocGlobal + Clock + Threads + Wait + Sync>(
    rt: &R,
    text: &str,
    count: &mut Count,
) -> Result<()> {
    let mut script = Script::new(rt.alloc())?;
    play_lines(rt, &mut script, text, count)
}

fn play_lines<R: Print + AllocGlobal + Clock + Threads + Wait + Sync>(
    rt: &R,
    script: &mut Script,
    text: &str,
    count: &mut Count,
) -> Result<()> {
    let mut number = 0u64;
    for line in text.lines() {
        number = number.wrapping_add(1);
        play_line(rt, script, line, count).context(format_args!("line {number}"))?;
    }
    if !script.is_whole() {
        bail!("it ends within a conversation");
    }
    Ok(())
}

// Reads a line, and plays the conversation that it ends, if it ends one.
fn play_line<R: Print + AllocGlobal + Clock + Threads + Wait + Sync>(
    rt: &R,
    script: &mut Script,
    line: &str,
    count: &mut Count,
) -> Result<()> {
    let Some(conversation) = script.read_line(line)? else {
        return Ok(());
    };
    count.played = count.played.wrapping_add(1);
    if !goes_as_written(rt, script, &conversation)? {
        count.otherwise = count.otherwise.wrapping_add(1);
    }
    Ok(())
}

// Plays a conversation, at each length of the file that it cuts or once, and prints a line for it, or where it went otherwise.
fn goes_as_written<R: Print + AllocGlobal + Clock + Threads + Wait + Sync>(
    rt: &R,
    script: &mut Script,
    conversation: &Conversation,
) -> Result<bool> {
    if let Some(cut) = conversation.file_cut() {
        let checked = check_cuts(rt, rt.alloc(), script.folder(), conversation, cut);
        let lengths = cut.lengths().len() as u64;
        return print_checked(rt, conversation.name(), checked, lengths, "lengths");
    }
    let caller = Caller::new(rt, rt.alloc(), script.folder());
    let told = caller.call(conversation.words(), Failing::Nothing)?;
    let checked = check(&caller, conversation, &told);
    let lines = if conversation.is_open_run() {
        conversation.lines()
    } else {
        told.lines()
    };
    script.keep_told(told);
    print_checked(rt, conversation.name(), checked, lines, "lines")
}

// Prints a line for a conversation, or where it went otherwise, and answers whether it went as written.
fn print_checked<R: Print>(
    rt: &R,
    name: &str,
    checked: Result<()>,
    number: u64,
    counted: &str,
) -> Result<bool> {
    match checked {
        Ok(()) => {
            println!(rt; "ok {name}: {number} {counted}")?;
            Ok(true)
        }
        Err(error) => {
            println!(rt; "NOT {name}\n{error:?}")?;
            Ok(false)
        }
    }
}
