//! The program: it sends the updates of a script to a server.
#![tactic(auto)]

mod decisions;
mod link;

use crate::decisions::most_read;
use crate::link::{Incoming, Outgoing, connection};
use dns_edges::{FileSource, Reading, Sink, Writing};
use dns_io::OutOfMemory;
use dns_reasons::{Reason, Why, update_reason};
use dns_update_client::{HELP, UpdateStatus, VERSION, after_writing, nsupdate, settings_of};
use dns_words::{Action, action_of, command_words, hex_words, put_text};
use std::cell::RefCell;
use std::env;
use std::io::{self, BufWriter, Cursor, ErrorKind, Read};
use std::net::TcpStream;
use std::process::ExitCode;

/// Does what the words of the command line say, and ends with the status's number. The script is standard input, and the lines go to
/// standard output.
fn main(rt: HostRuntime) -> ExitCode {
    let Ok(words) = words_in(&rt) else {
        return UpdateStatus::OutOfMemory.exit_code();
    };
    let Ok(writer) = BufWriter::new(rt.alloc(), io::writer(&rt)) else {
        return UpdateStatus::OutOfMemory.exit_code();
    };
    let mut out = Writing::new(writer);
    let status = match action_of(words.as_slice()) {
        Action::Help => after_writing(UpdateStatus::Ok, put_text(HELP, &mut out)),
        Action::Version => after_writing(UpdateStatus::Ok, put_text(VERSION, &mut out)),
        Action::Command => update(&rt, &words, &mut out),
    };
    if status == UpdateStatus::Usage {
        tell_words(&rt);
    }
    status.exit_code()
}

/// Tells a person on standard error which word is wrong, or missing. That this line could not be written changes nothing.
fn tell_words(rt: &HostRuntime) {
    if has_unread_word(rt) {
        tell_reason(rt, None, Why::Text);
        return;
    }
    let Ok(words) = command_words(rt) else {
        return;
    };
    if let Ok(Reason { word, why }) = update_reason(rt.alloc(), words.as_slice()) {
        tell_reason(rt, word, why);
    }
}

/// Whether the words could not be read, since one of them is not UTF-8.
fn has_unread_word(rt: &HostRuntime) -> bool {
    match env::args(rt) {
        Ok(_) => false,
        Err(error) => match error.kind() {
            ErrorKind::OutOfMemory => false,
            _ => true,
        },
    }
}

/// Tells why this word is wrong, or what is missing. Control characters of a word are escaped, so that the line stays one.
fn tell_reason(rt: &HostRuntime, word: Option<&str>, why: Why) {
    match word {
        None => {
            let _told = eprintln!(rt; "dns-nsupdate: {why}; dns-nsupdate --help tells more");
        }
        Some("") => {
            let _told = eprintln!(rt;
                "dns-nsupdate: an empty word: {why}; dns-nsupdate --help tells more"
            );
        }
        Some(word) => {
            let word = word.escape_debug();
            let _told = eprintln!(rt;
                "dns-nsupdate: {word}: {why}; dns-nsupdate --help tells more"
            );
        }
    }
}

/// The words of the command line, without the program's name, with their addresses in hex digits.
fn words_in(rt: &HostRuntime) -> Result<Vec<String>, OutOfMemory> {
    hex_words(rt.alloc(), command_words(rt)?)
}

/// Sends what standard input says to the server that the words name. The connection is made when the script was read, so that the
/// server does not wait for it; where none can be made, the first read of it fails. For other words nothing is read or connected.
fn update<O: Sink>(rt: &HostRuntime, words: &Vec<String>, out: &mut O) -> UpdateStatus {
    let Some(settings) = settings_of(words.as_slice()) else {
        return refuse(rt, words, out);
    };
    let mut script = FileSource::new(Some(script_text(rt)));
    let link = RefCell::new(connection(rt, settings.server));
    let mut input = Reading::new(Incoming::new(&link));
    let mut output = Writing::new(Outgoing::new(rt, settings.server, &link));
    nsupdate(rt.alloc(), words, &mut script, &mut input, &mut output, out)
}

/// Runs the client over words that name no server: without a script, and without a connection.
fn refuse<O: Sink>(rt: &HostRuntime, words: &Vec<String>, out: &mut O) -> UpdateStatus {
    let mut script: FileSource<Cursor<Vec<u8>>> = FileSource::new(None);
    let mut input: FileSource<TcpStream> = FileSource::new(None);
    let mut output = Writing::new(io::sink());
    nsupdate(rt.alloc(), words, &mut script, &mut input, &mut output, out)
}

/// What standard input has, or so much of it that it is known to be too long.
fn script_text(rt: &HostRuntime) -> io::Result<Cursor<Vec<u8>>> {
    let mut text = Vec::new(rt.alloc());
    rt.reader().take(most_read()).read_to_end(&mut text)?;
    Ok(Cursor::new(text))
}
